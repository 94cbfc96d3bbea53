ghost use Rattle.std.specs.Prelude.{◌≡◌, ◌+◌, ◌<◌};

use crate::since_start::SinceStart;
use backend_pool::{Blanks, Book, NoGate, RemoteBackend, Shared, Shares, WorkerShares, worker};
use call_plan::Plans;
use connections::{clock_side, read_side, write_side};
use script_replay::{Fault, PlainHook, stock};
use std::alloc::{AllocError, Global};
use std::marker::Brand;
use std::net::{Net, Shutdown, TcpListener, TcpStream};
use std::sync::ledger::{Blank, Ledger, Share};
use std::sync::{Arc, Wait};
use std::thread::{self, JoinHandle, Threads};
use std::time::{Clock, Instant};

/// What serving takes of the system, beside its sockets.
pub(crate) trait Host: Clock + Threads + Wait + Copy + Send + Sync + 'static {}

impl<M: Clock + Threads + Wait + Copy + Send + Sync + 'static> Host for M {}

/// What the threads share.
#[derive(Drop)]
pub(crate) struct Server<M, L: Ledger, J: Ledger, K: Ledger> {
    rt: M,
    alloc: Global,
    // from when on moments count
    start: Instant,
    shared: Shared<PlainHook, L, J, K>,
}

/// Serves one stream by threads, as `serve_with` does.
pub(crate) fn serve<M: Host + Net<Listener = TcpListener, Stream = TcpStream>>(
    rt: M,
    alloc: Global,
    plans: Plans,
    listener: TcpListener,
    workers: u32,
) -> Result<(), Fault> {
    // a part of each ledger for whoever has a share, and one more
    let blanks = Blanks {
        bytes: Blank::new(1),
        jobs: Blank::new(u64::from(workers) + 1),
        results: Blank::new(u64::from(workers) + 1),
    };
    Server::<M, Brand, Brand, Brand>::serve_with(rt, alloc, plans, blanks, listener, workers)
}

impl<
    M: Host + Net<Listener = TcpListener, Stream = TcpStream>,
    L: Ledger + Send + Sync + 'static,
    J: Ledger + Send + Sync + 'static,
    K: Ledger + Send + Sync + 'static,
> Server<M, L, J, K> {
    /// Serves one stream by threads: two for its sides, so many workers, and one for the clock. It ends once the stream
    /// has.
    pub(crate) fn serve_with(
        rt: M,
        alloc: Global,
        plans: Plans,
        blanks: Blanks,
        listener: TcpListener,
        workers: u32,
    ) -> Result<(), Fault>
        requires names { (blanks.bytes.name ≡ L.name) × (blanks.jobs.name ≡ J.name) × (blanks.results.name ≡ K.name) }
        requires parts { (blanks.bytes.parts ≡ L.parts) × (blanks.jobs.parts ≡ J.parts)
            × (blanks.results.parts ≡ K.parts) }
        requires enough { (blanks.bytes.parts ≡ 1) × (workers < blanks.jobs.parts) × (workers < blanks.results.parts) }
    {
        let start = Instant::now(&rt)?;
        let (book, mut shares) = Book::<PlainHook, L, J, K>::new(alloc, plans, blanks)?;
        let shared = Shared::new(book);
        let server = Server {
            rt,
            alloc,
            start,
            shared,
        };
        let server = Arc::new(alloc, server)?;
        let mut crew = Vec::new(alloc);
        let served = match Server::start_crew(&server, workers, &mut shares, &mut crew) {
            Ok(()) => server.serve_next(&listener, shares.bytes),
            Err(_) => Err(Fault::Memory),
        };
        server.shared.shut(&rt);
        for thread in crew {
            thread.join(&rt);
        }
        served
    }

    /// Starts so many workers, each with parts of the shares of its own, and the clock's thread. Those that started are
    /// in the crew, also where it fails.
    fn start_crew(
        server: &Arc<Self>,
        workers: u32,
        shares: &mut Shares<L, J, K>,
        crew: &mut Vec<JoinHandle<()>>,
    ) -> Result<(), AllocError>
        requires { (workers < shares.old.jobs.parts) × (workers < shares.old.results.parts) }
        ensures { shares.new.bytes ≡ shares.old.bytes }
    {
        for _worker in 0..workers {
            let mine = WorkerShares {
                jobs: shares.jobs.split_off(1, 0),
                results: shares.results.split_off(1, 0),
            };
            crew.reserve(1)?;
            crew.push_reserved(Server::start_worker(server, mine)?);
        }
        let of = Arc::try_clone(server)?;
        let mut clock = SinceStart::new(server.start);
        let job = move || clock_side(&of.rt, &mut clock, &of.shared);
        crew.reserve(1)?;
        crew.push_reserved(thread::spawn(&server.rt, job)?);
        Ok(())
    }

    /// Starts a worker, which asks backends over TCP. Its shares are dropped as it ends: nobody asks for their sum.
    fn start_worker(
        server: &Arc<Self>,
        mine: WorkerShares<J, K>,
    ) -> Result<JoinHandle<()>, AllocError>
        requires { (mine.jobs.parts ≡ 1) × (mine.results.parts ≡ 1) }
    {
        let of = Arc::try_clone(server)?;
        let job = move ||
            requires { (mine.jobs.parts ≡ 1) × (mine.results.parts ≡ 1) }
        {
            let backend = RemoteBackend::new(of.alloc, of.start);
            let _ = worker(&of.rt, of.alloc, &of.shared, &backend, &NoGate, mine);
        };
        Ok(thread::spawn(&server.rt, job)?)
    }

    /// Serves the next stream by its two sides, each in a thread of its own. Behind the last reply it is shut down both
    /// ways, which ends its read.
    fn serve_next(&self, listener: &TcpListener, bytes: Share<L>) -> Result<(), Fault>
        requires { bytes.parts ≡ 1 }
    {
        let (stream, _peer) = listener.accept()?;
        let hooks = stock(self.alloc)?;
        let opened = self.shared.state.lock(&self.rt).book.opening(hooks);
        let Ok(conn) = opened else {
            return Err(Fault::Memory);
        };
        let (mut reader, mut writer) = (&stream, &stream);
        let (_share, _replies) = thread::join(
            &self.rt,
            || read_side(&self.rt, &mut reader, &self.shared, conn, bytes),
            || {
                let replies = write_side(&self.rt, self.alloc, &mut writer, &self.shared, conn);
                // the client may have ended the stream before
                let _ = stream.shutdown(Shutdown::Both);
                replies
            },
        );
        Ok(())
    }
}
