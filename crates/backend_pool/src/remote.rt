ghost use Rattle.backend_pool.specs.Work.{ReadsReply, SendsOn};
ghost use Rattle.branch_exchange.specs.declared.asked.Asked.{Asked};
ghost use Rattle.branch_exchange.specs.Exchange.{IsReading};
ghost use Rattle.http_pieces.specs.declared.framing.Framing.TheVariants as framings;
ghost use Rattle.http_pieces.specs.declared.reply.HttpReply.{HttpReply};
ghost use Rattle.std.specs.Io.KnownBytes.{Appends};
ghost use Rattle.std.specs.Prelude.{◌≡◌, [], None, true};

use crate::working::Backend;
use branch_exchange::{Asked, Exchange, MOST_READS};
use connect_codec::{BranchAsk, passing_request};
use gateway_core::Job;
use http_pieces::{Bytes, Framing};
use std::alloc::Global;
use std::cell::RefCell;
use std::io::{self, ErrorKind, Read, Write};
use std::net::{Net, OpenStream, TcpStream, ToSocketAddrs};
use std::time::{Clock, Duration, Instant};
use wires::PIECE;

/// Asks each job's backend over a TCP connection of its own. `ask` waits up to the job's deadline and 50 milliseconds
/// more: a wait that lasts longer fails, and the job is lost. A job without a deadline, of its call or of its branch,
/// waits as long as its backend lets it.
#[derive(Clone, Copy, Debug)]
pub struct RemoteBackend {
    alloc: Global,
    // from when on moments count
    start: Instant,
}

impl RemoteBackend {
    /// A backend whose requests and replies are kept on this allocator. Jobs' deadlines are milliseconds from that
    /// instant.
    pub fn new(alloc: Global, start: Instant) -> RemoteBackend {
        RemoteBackend { alloc, start }
    }

    /// How long a job with this deadline is waited for.
    fn until(&self, deadline: Option<u64>) -> Option<Instant> {
        let longer = deadline?.saturating_add(GRACE);
        self.start.checked_add(Duration::from_millis(longer))
    }
}

impl Backend for RemoteBackend {
    ghost gives = { λ job asked. Unit {0} };

    fn ask<R: Net + Clock>(&self, rt: &R, job: &Job) -> Asked {
        let ask = BranchAsk {
            address: job.address(),
            path: job.path(),
            remaining: job.remaining(),
            request_id: job.request_id(),
            body: job.body(),
            keeps: false,
        };
        let Ok(request) = passing_request(self.alloc, &ask, &job.passed()) else {
            return Asked::NoMemory;
        };
        let until = self.until(job.deadline());
        let Ok(stream) = connect(rt, job.address(), until) else {
            return Asked::Lost;
        };
        let stream = RefCell::new(stream);
        exchange(
            self.alloc,
            &mut StreamEnd::of(rt, &stream, until),
            &mut StreamEnd::of(rt, &stream, until),
            request.as_slice(),
        )
    }
}

/// How long a backend is waited for beyond its job's deadline, in milliseconds. Whoever hands in a moment meanwhile
/// ends the call, so that a silent backend is not taken for the call's first failure.
const GRACE: u64 = 50;

/// So many of the addresses that a name has are tried at most.
const MOST_ADDRESSES: u32 = 32;

/// A new connection to one of the address's own addresses, which are tried in turn up to that instant, if there is one
/// (RFC 9110, section 4.3.3). If another follows, that has half of the time which is left, and at least a millisecond.
fn connect<R: Net + Clock>(rt: &R, address: &str, until: Option<Instant>) -> io::Result<R::Stream> {
    let mut addresses = address.to_socket_addrs(rt)?.peekable();
    for _address in 0..MOST_ADDRESSES {
        let Some(at) = addresses.next() else {
            break;
        };
        let is_last = addresses.peek().is_none();
        let tried = match time_left(rt, until)? {
            Some(left) if is_last => TcpStream::connect_timeout(rt, &at, left),
            Some(left) => {
                let half = left.checked_div(2).unwrap_or(left);
                TcpStream::connect_timeout(rt, &at, half.max(Duration::from_millis(1)))
            }
            None => TcpStream::connect(rt, at),
        };
        if let Ok(stream) = tried {
            stream.set_nodelay(true)?;
            return Ok(stream);
        }
    }
    Err(io::Error::from(ErrorKind::ConnectionRefused))
}

/// How long it is yet up to the instant, if there is one; `TimedOut` once it has come.
fn time_left<C: Clock>(clock: &C, until: Option<Instant>) -> io::Result<Option<Duration>> {
    let Some(until) = until else {
        return Ok(None);
    };
    let left = until.duration_since(Instant::now(clock)?);
    if left.is_zero() {
        return Err(io::Error::from(ErrorKind::TimedOut));
    }
    Ok(Some(left))
}

/// A wait may end so many milliseconds later than at its instant: then the system is not told anew what is left.
const SLACK: u64 = 1;

/// A call that a signal interrupted is made so often at most.
const MOST_TRIES: u32 = 1_000;

/// The reading or the writing end of a stream, which waits no longer than up to an instant, if there is one.
#[derive(Drop)]
struct StreamEnd<'a, C, S> {
    clock: &'a C,
    stream: &'a RefCell<S>,
    until: Option<Instant>,
    // what the system was told last of how long this end may wait
    timeout: Option<Duration>,
}

impl<'a, C: Clock, S> StreamEnd<'a, C, S> {
    fn of(clock: &'a C, stream: &'a RefCell<S>, until: Option<Instant>) -> StreamEnd<'a, C, S> {
        StreamEnd {
            clock,
            stream,
            until,
            timeout: None,
        }
    }

    /// The time that the next wait may take, where the system has to be told: at the first wait, and where less is
    /// left.
    fn new_timeout(&mut self) -> io::Result<Option<Duration>> {
        let Some(left) = time_left(self.clock, self.until)? else {
            return Ok(None);
        };
        let enough = left.saturating_add(Duration::from_millis(SLACK));
        if self.timeout.is_some_and(|told| told <= enough) {
            return Ok(None);
        }
        self.timeout = Some(left);
        Ok(self.timeout)
    }
}

impl<C: Clock, S: Read + OpenStream> Read for StreamEnd<'_, C, S> {
    fn read(&mut self, buf: &mut [u8]) -> io::Result<usize> {
        for _try in 0..MOST_TRIES {
            let timeout = self.new_timeout()?;
            let mut stream = self.stream.try_borrow_mut()?;
            if timeout.is_some() {
                stream.set_read_timeout(timeout)?;
            }
            match stream.read(buf) {
                Err(error) if error.kind() == ErrorKind::Interrupted => {}
                done => return done,
            }
        }
        Err(io::Error::from(ErrorKind::TimedOut))
    }
}

impl<C: Clock, S: Write + OpenStream> Write for StreamEnd<'_, C, S> {
    fn write(&mut self, buf: &[u8]) -> io::Result<usize> {
        for _try in 0..MOST_TRIES {
            let timeout = self.new_timeout()?;
            let mut stream = self.stream.try_borrow_mut()?;
            if timeout.is_some() {
                stream.set_write_timeout(timeout)?;
            }
            match stream.write(buf) {
                Err(error) if error.kind() == ErrorKind::Interrupted => {}
                done => return done,
            }
        }
        Err(io::Error::from(ErrorKind::TimedOut))
    }

    fn flush(&mut self) -> io::Result<()> {
        self.stream.try_borrow_mut()?.flush()
    }
}

/// Writes the request, and reads one reply (RFC 9112), over ends that wait. `Lost` where a write or a read fails, a
/// write takes nothing, the input ends before the reply is whole, the reply is refused, or 131,072 reads left it
/// incomplete.
pub fn exchange<R: Read, W: Write>(
    alloc: Global,
    reader: &mut R,
    writer: &mut W,
    request: &[u8],
) -> Asked
    // A reply comes only where the whole request was written, and what was read begins with that reply.
    ensures sent { (reply : HttpReply) → result ≡ Asked.Reply reply
        → Appends (W.contents writer.old) (W.contents writer.new) request.now }
    ensures read { (reply : HttpReply) → result ≡ Asked.Reply reply
        → ReadsReply (R.remaining reader.old) (R.remaining reader.new) reply }
{
    let Ok(request) = Bytes::from_slice(alloc, request) else {
        return Asked::NoMemory;
    };
    let mut exchange = Exchange::new(alloc, Framing::Fixed, request);
    if !send(writer, &mut exchange) {
        return Asked::Lost;
    }
    receive(reader, &mut exchange)
}

/// Reads until the reply is whole, or the exchange ends without one.
fn receive<R: Read>(reader: &mut R, exchange: &mut Exchange) -> Asked
    requires { IsReading framings.Fixed exchange.old.replies [] }
    ensures { (reply : HttpReply) → result ≡ Asked.Reply reply
        → ReadsReply (R.remaining reader.old) (R.remaining reader.new) reply }
{
    let mut piece = [0u8; PIECE];
    for _read in 0..MOST_READS {
        match reader.read(&mut piece) {
            Ok(0) | Err(_) => return Asked::Lost,
            Ok(count) => match exchange.received(&piece[..count]) {
                Some(end) => return end.asked(),
                None => {}
            },
        }
    }
    Asked::Lost
}

/// Writes all that is left of the request, and answers whether it could: not where a write fails or takes nothing.
fn send<W: Write>(writer: &mut W, exchange: &mut Exchange) -> bool
    ensures sent { SendsOn (W.contents writer.old) (W.contents writer.new) exchange.old.left exchange.new.left }
    ensures whole { result ≡ true → exchange.new.left ≡ [] }
    ensures replies { exchange.new.replies ≡ exchange.old.replies }
{
    while !exchange.is_sent() {
        match writer.write(exchange.request().waiting()) {
            Ok(0) | Err(_) => return false,
            Ok(count) => exchange.sent(count),
        }
    }
    true
}
