use connections::Clock;
use std::sync::Wait;
use std::thread;
use std::time::{self, Duration, Instant};

/// The milliseconds since the gateway began to serve.
#[derive(Drop)]
pub(crate) struct SinceStart {
    start: Instant,
    latest: u64,
}

impl SinceStart {
    /// A clock that stood at 0 at this instant.
    pub(crate) fn new(start: Instant) -> SinceStart {
        SinceStart { start, latest: 0 }
    }
}

impl Clock for SinceStart {
    /// The moment before, where the system's clock can't be read.
    fn now<R: time::Clock + Wait>(&mut self, rt: &R) -> u64 {
        if let Ok(elapsed) = self.start.elapsed(rt) {
            self.latest = u64::try_from(elapsed.as_millis()).unwrap_or(u64::MAX);
        }
        self.latest
    }

    fn pause<R: time::Clock + Wait>(&mut self, rt: &R) {
        thread::sleep(rt, Duration::from_millis(1));
    }
}
