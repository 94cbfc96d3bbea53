ghost use Rattle.std.specs.Prelude.{⊤};

use crate::loop_log::LogLines;
use crate::loop_side::LoopSide;
use access_log::{Standing, standing_line};
use crossbeam_channel::{Receiver, RecvTimeoutError, Sender, unbounded};
use gateway_core::Tally;
use libc::STDERR_FILENO;
use std::alloc::{AllocError, Global};
use std::io::Eprint;
use std::marker::Model;
use std::sync::atomic::{AtomicU64, Ordering};
use std::sync::{Arc, Wait};
use std::thread;
use std::time::{Clock, Duration, Instant, SystemTime};

/// How often it is told how the gateway stands, in milliseconds.
const PAUSE: u64 = 10_000;

/// So many lines are written at once at most.
const TOGETHER: u32 = 64;

/// Behind so many bytes no further line is written with them.
const MOST_BYTES: usize = 3_500;

/// So long it lets lines gather once none waits, in milliseconds: whoever hands one in then need not wake it.
const GATHERS: u64 = 5;

/// Writes the lines of the log to standard error, those that wait by one write, and every ten seconds how the gateway
/// stands. Where a write fails its lines are left out.
#[derive(Drop)]
pub(crate) struct LogWriter {
    alloc: Global,
    pub(crate) lines: Receiver<String>,
    dropped: Arc<AtomicU64>,
    sides: Vec<Arc<LoopSide>>,
}

// Clauses see nothing of it, which keeps proofs small.
impl Model for LogWriter {
    ghost Value = { ⊤ };

    ghost view = { λ _. tt };
}

impl LogWriter {
    /// A log of no loops yet, of failures or of all: where its lines are handed in, and who writes them.
    pub(crate) fn new(alloc: Global, tells_all: bool) -> Result<(LogLines, LogWriter), AllocError> {
        let (handed_in, lines) = unbounded(alloc)?;
        let dropped = Arc::new(alloc, AtomicU64::new(0))?;
        let writer = LogWriter {
            alloc,
            lines,
            dropped: Arc::try_clone(&dropped)?,
            sides: Vec::new(alloc),
        };
        Ok((
            LogLines {
                lines: handed_in,
                dropped,
                tells_all,
            },
            writer,
        ))
    }

    /// One more loop, by what it shares.
    pub(crate) fn add(&mut self, side: &Arc<LoopSide>) -> Result<(), AllocError> {
        self.sides.push(Arc::try_clone(side)?)?;
        Ok(())
    }

    /// Writes until nobody can hand lines in any more and all are written. Whoever waits sees that by the end of this
    /// sender.
    pub(crate) fn run<R: Clock + Wait + Eprint>(self, rt: &R, done: Sender<()>) {
        let mut told = Instant::now(rt).ok();
        for _ in rt.forever() {
            match self.lines.recv_timeout(rt, time_left(rt, told)) {
                Ok(line) => {
                    if self.write(rt, line) {
                        thread::sleep(rt, Duration::from_millis(GATHERS));
                    }
                }
                Err(RecvTimeoutError::Disconnected) => break,
                Err(RecvTimeoutError::Timeout) => {}
            }
            if time_left(rt, told).is_zero() {
                told = Instant::now(rt).ok();
                self.tell_standing(rt);
            }
        }
        drop(done);
    }

    /// Writes the line, and those that wait behind it. Answers whether none waits any more.
    fn write<R: Wait + Eprint>(&self, rt: &R, line: String) -> bool {
        let mut lines = line;
        let mut count: u64 = 1;
        let mut is_all = false;
        for _line in 1..TOGETHER {
            if lines.len() >= MOST_BYTES {
                break;
            }
            let Ok(next) = self.lines.try_recv(rt) else {
                is_all = true;
                break;
            };
            if add_line(&mut lines, next.as_str()).is_err() {
                self.dropped.fetch_add(1, Ordering::SeqCst);
                break;
            }
            count = count.saturating_add(1);
        }
        if !put(rt, &mut lines) {
            self.dropped.fetch_add(count, Ordering::SeqCst);
        }
        is_all
    }

    /// Tells how the gateway stands.
    fn tell_standing<R: Clock + Wait + Eprint>(&self, rt: &R) {
        let mut standing = Standing {
            connections: 0,
            lingering: 0,
            asking: 0,
            waiting: 0,
            dropped: self.dropped.load(Ordering::SeqCst),
            tally: Tally {
                counted: 0,
                late: 0,
                unknown: 0,
            },
        };
        for side in &self.sides {
            sum(rt, &mut standing, side);
        }
        let time = milliseconds_since_1970(rt);
        if let Ok(mut line) = standing_line(self.alloc, time, &standing) {
            put(rt, &mut line);
        }
    }
}

/// Adds a line behind those before.
fn add_line(lines: &mut String, next: &str) -> Result<(), AllocError> {
    lines.reserve(next.len().saturating_add(1))?;
    lines.push_str("\n")?;
    lines.push_str(next)
}

/// Writes the lines, and answers whether all could be written. They go by one write, of which a pipe takes up to 4,096
/// bytes as a whole, so that lines of other programs that write to it stand before or behind them (POSIX, `PIPE_BUF`);
/// what that leaves goes by as many as it needs.
fn put<R: Eprint>(rt: &R, lines: &mut String) -> bool {
    if add_line(lines, "").is_err() {
        return rt.eprintln(lines.as_str()).is_ok();
    }
    let taken = libc::write(STDERR_FILENO, lines.as_bytes());
    match lines.get(usize::try_from(taken).unwrap_or(0)..) {
        Some("") => true,
        Some(left) => rt.eprint(left).is_ok(),
        None => false,
    }
}

/// Adds how a loop stands.
fn sum<R: Wait>(rt: &R, all: &mut Standing, side: &LoopSide) {
    let one = side.standing(rt);
    all.connections = all.connections.saturating_add(one.open as u64);
    all.lingering = all.lingering.saturating_add(one.lingering as u64);
    all.asking = all.asking.saturating_add(one.asking as u64);
    all.waiting = all.waiting.saturating_add(one.waiting as u64);
    all.tally.counted = all.tally.counted.saturating_add(one.tally.counted);
    all.tally.late = all.tally.late.saturating_add(one.tally.late);
    all.tally.unknown = all.tally.unknown.saturating_add(one.tally.unknown);
}

/// The time up to the next telling of how it stands, if that was told then last.
fn time_left<R: Clock>(rt: &R, told: Option<Instant>) -> Duration {
    let pause = Duration::from_millis(PAUSE);
    match told.map(|told| told.elapsed(rt)) {
        Some(Ok(passed)) => pause.saturating_sub(passed),
        _ => pause,
    }
}

/// The time, in milliseconds from 1970; 0 where the system's clock can't be read.
pub(crate) fn milliseconds_since_1970<R: Clock>(rt: &R) -> u64 {
    let Ok(now) = SystemTime::now(rt) else {
        return 0;
    };
    match now.duration_since(SystemTime::UNIX_EPOCH) {
        Ok(since) => u64::try_from(since.as_millis()).unwrap_or(u64::MAX),
        Err(_) => 0,
    }
}
