ghost use Rattle.std.specs.Prelude.{◌≡◌, ◌≤◌};

use std::io::Eprint;
use std::net::{Net, TcpListener, TcpStream};
use std::sync::Wait;
use std::thread::Threads;
use std::time::{Clock, Instant};

/// What serving takes of the system that the program runs on, beside its sockets.
pub(crate) trait Host: Clock + Eprint + Threads + Wait + Copy + Send + Sync + 'static {}

impl<M: Clock + Eprint + Threads + Wait + Copy + Send + Sync + 'static> Host for M {}

/// The same with its sockets.
pub(crate) trait NetHost: Host + Net<Listener = TcpListener, Stream = TcpStream> {}

impl<M: Host + Net<Listener = TcpListener, Stream = TcpStream>> NetHost for M {}

/// The milliseconds since the program began to serve.
#[derive(Clone, Copy, Debug)]
pub(crate) struct SinceStart {
    start: Instant,
    latest: u64,
}

impl SinceStart {
    /// A clock that stood at 0 at this instant.
    pub(crate) fn new(start: Instant) -> SinceStart {
        SinceStart { start, latest: 0 }
    }

    /// The time now, never less than it was told before; the same where the system's clock can't be read.
    pub(crate) fn now<R: Clock>(&mut self, rt: &R) -> u64
        ensures latest { result ≡ self.new.latest }
        ensures never_less { self.old.latest ≤ result }
    {
        if let Ok(passed) = self.start.elapsed(rt) {
            let now = u64::try_from(passed.as_millis()).unwrap_or(u64::MAX);
            self.latest = self.latest.max(now);
        }
        self.latest
    }
}
