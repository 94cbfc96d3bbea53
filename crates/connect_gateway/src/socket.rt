use crate::main_side::MainSide;
use libc::{EMFILE, net as c};
use mio::net::TcpStream;
use std::alloc::{AllocError, Global};
use std::io::{self, ErrorKind, Read, Write};
use std::net::{Net, Shutdown, SocketAddr};
use std::os::fd::{AsRawFd, RawFd};
use std::sync::Arc;
use std::sync::atomic::{AtomicBool, AtomicU64, Ordering};
use wires::Stream;

/// The number of the error where the system has no descriptor left; `EMFILE` is that where the program has none.
const ENFILE: i32 = 23;

/// A request of so many bytes fits a packet.
const PACKET: usize = 1_200;

/// So many bytes an address has, as `connect` is to read it.
const ADDRESS: u32 = 16;

/// A client's stream that was accepted, and the address of its client.
#[derive(Drop)]
pub(crate) struct Newcomer {
    pub(crate) stream: TcpStream,
    pub(crate) peer: SocketAddr,
}

/// A socket whose reads and writes don't wait: a client's, or one to a backend. Where it could not be made its first
/// write fails.
#[derive(Drop)]
pub(crate) struct Socket {
    // given back before the client can see the end of its stream: whoever sees it finds the place free
    seat: Option<Seat>,
    // the client's address
    peer: Option<SocketAddr>,
    stream: Result<TcpStream, ErrorKind>,
}

impl Socket {
    /// A client's, which has that seat.
    pub(crate) fn of_client(newcomer: Newcomer, seat: Seat) -> io::Result<Socket> {
        newcomer.stream.set_nodelay(true)?;
        Ok(Socket {
            seat: Some(seat),
            peer: Some(newcomer.peer),
            stream: Ok(newcomer.stream),
        })
    }

    /// One that begins to connect to a backend, over which so many bytes at most will be written.
    pub(crate) fn to_backend<R: Net>(rt: &R, address: SocketAddr, length: usize) -> Socket {
        Socket {
            seat: None,
            peer: None,
            stream: connect(rt, address, length).map_err(|error| kind_of(&error)),
        }
    }

    /// Its stream, or why there is none.
    fn stream(&self) -> io::Result<&TcpStream> {
        self.stream.as_ref().map_err(|kind| io::Error::from(*kind))
    }

    /// The address and the port of the client, if they are known and there is memory for their text.
    pub(crate) fn peer_text(&self, alloc: Global) -> Option<String> {
        let peer = self.peer?;
        format!(in alloc; "{peer}").ok()
    }

    /// Its descriptor, if it has one.
    pub(crate) fn descriptor(&self) -> Option<RawFd> {
        Some(self.stream().ok()?.as_raw_fd())
    }
}

/// Closes a client's stream of which nothing was read, so that its client sees a reset. At an end without a byte some
/// would wait for ever, as Node's `fetch` does.
pub(crate) fn turn_away(stream: TcpStream) {
    // an address of no family takes the connection back; where that fails it is closed all the same
    let no_address = [0u8; c::_SS_SIZE];
    let _status = unsafe { c::connect(stream.as_raw_fd(), &no_address, ADDRESS) };
    drop(stream);
}

/// Begins to connect. Only of a long request a part would wait until what is before it is acknowledged.
fn connect<R: Net>(rt: &R, address: SocketAddr, length: usize) -> io::Result<TcpStream> {
    let stream = TcpStream::connect(rt, address)?;
    if length > PACKET {
        stream.set_nodelay(true)?;
    }
    Ok(stream)
}

/// The kind of a failed connection. `QuotaExceeded` where the program or the system has no descriptor left.
fn kind_of(error: &io::Error) -> ErrorKind {
    if lacks_descriptor(error) {
        ErrorKind::QuotaExceeded
    } else {
        error.kind()
    }
}

/// Whether the program or the system has no descriptor left.
pub(crate) fn lacks_descriptor(error: &io::Error) -> bool {
    matches!(error.raw_os_error(), Some(EMFILE | ENFILE))
}

impl Read for Socket {
    fn read(&mut self, buf: &mut [u8]) -> io::Result<usize> {
        (&mut self.stream()?).read(buf)
    }
}

impl Write for Socket {
    fn write(&mut self, buf: &[u8]) -> io::Result<usize> {
        (&mut self.stream()?).write(buf)
    }

    fn flush(&mut self) -> io::Result<()> {
        Ok(())
    }
}

impl Stream for Socket {
    fn shut_sending(&self) -> io::Result<()> {
        if let Some(seat) = &self.seat {
            seat.leave();
        }
        self.stream()?.shutdown(Shutdown::Write)
    }
}

/// A place among the open connections of a loop.
pub(crate) struct Seat {
    open: Arc<AtomicU64>,
    main: Arc<MainSide>,
    is_left: AtomicBool,
}

impl Seat {
    /// One more among those that are counted there, for which main may wait.
    pub(crate) fn among(open: &Arc<AtomicU64>, main: &Arc<MainSide>) -> Result<Seat, AllocError> {
        let open = Arc::try_clone(open)?;
        let main = Arc::try_clone(main)?;
        open.fetch_add(1, Ordering::SeqCst);
        Ok(Seat {
            open,
            main,
            is_left: AtomicBool::new(false),
        })
    }

    /// Gives the place back, once.
    pub(crate) fn leave(&self) {
        if !self.is_left.swap(true, Ordering::SeqCst) {
            self.open.fetch_sub(1, Ordering::SeqCst);
            self.main.place_is_free();
        }
    }
}

impl Drop for Seat {
    fn drop(self) {
        self.leave();
        let Self {
            open,
            main,
            is_left,
        } = self;
        drop(open);
        drop(main);
        drop(is_left);
    }
}
