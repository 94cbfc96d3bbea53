ghost use Rattle.std.specs.Prelude.{◌≡◌, [], Some};

use std::alloc::Global;
use std::io;
use std::io::{ErrorKind, Read, Write};
use std::marker::Model;
use std::sync::Arc;
use std::sync::atomic::{AtomicBool, Ordering};
use std::time::{Clock, Duration};

/// Turns of one millisecond that an end of input waits for its mark.
const MOST_TURNS: u32 = 10_000;

/// Set by a writer once it holds so many bytes; a reader's end of input waits for it.
pub type Mark = Arc<AtomicBool>;

/// A reader over memory, which gives at most so many bytes at each read.
#[derive(Drop)]
pub struct StepReader<C> {
    clock: C,
    bytes: Vec<u8>,
    at: usize,
    step: usize,
    reads: u64,
    fails_at: Option<u64>,
    waits_for: Option<Mark>,
}

impl<C> Model for StepReader<C> {
    ghost use Rattle.std.specs.Prelude.{List, ℕ, drop, ◌<◌, ◌≤◌, length};

    ghost Value = { List ℕ };

    ghost view = { λ r. drop r.at r.bytes.items };

    ghost invariant = { λ r. (r.at ≤ length r.bytes.items) × (0 < r.step) };
}

impl<C: Clock> StepReader<C> {
    /// A reader of these bytes, with at most `step` of them at each read, and at least one. Contracts see what is left.
    pub fn new(clock: C, bytes: Vec<u8>, step: usize) -> StepReader<C>
        ensures { result ≡ bytes.items }
    {
        StepReader {
            clock,
            bytes,
            at: 0,
            step: step.max(1),
            reads: 0,
            fails_at: None,
            waits_for: None,
        }
    }

    /// The same reader, of which the read of that number, from 0, fails.
    pub fn failing_at(self, read: u64) -> StepReader<C>
        ensures { result ≡ self }
    {
        StepReader {
            fails_at: Some(read),
            ..self
        }
    }

    /// The same reader, whose end waits for the mark: at most 10,000 turns of one millisecond, and then it fails.
    pub fn waiting_for(self, mark: Mark) -> StepReader<C>
        ensures { result ≡ self }
    {
        StepReader {
            waits_for: Some(mark),
            ..self
        }
    }

    /// Waits for the mark, if there is one, and answers whether it was set in time.
    fn reaches_its_end(&self) -> bool {
        let Some(mark) = &self.waits_for else {
            return true;
        };
        for _turn in 0..MOST_TURNS {
            if mark.load(Ordering::SeqCst) {
                return true;
            }
            self.clock.sleep(Duration::from_millis(1));
        }
        false
    }
}

impl<C: Clock> Read for StepReader<C> {
    ghost remaining = { λ r. Some r };

    fn read(&mut self, buf: &mut [u8]) -> io::Result<usize> {
        let read = self.reads;
        self.reads = read.saturating_add(1);
        if self.fails_at == Some(read) {
            return Err(io::Error::from(ErrorKind::ConnectionReset));
        }
        if self.at == self.bytes.len() && !self.reaches_its_end() {
            return Err(io::Error::from(ErrorKind::TimedOut));
        }
        let left = self.bytes.len() - self.at;
        let count = left.min(buf.len()).min(self.step);
        buf[..count].copy_from_slice(&self.bytes[self.at..self.at + count]);
        self.at += count;
        Ok(count)
    }
}

/// A writer into memory, which takes at most so many bytes at each write.
#[derive(Drop)]
pub struct StepWriter {
    bytes: Vec<u8>,
    step: usize,
    writes: u64,
    fails_at: Option<u64>,
    marks: Option<(usize, Mark)>,
}

impl Model for StepWriter {
    ghost use Rattle.std.specs.Prelude.{List, ℕ};

    ghost Value = { List ℕ };

    ghost view = { λ w. w.bytes.items };
}

impl StepWriter {
    /// A writer that holds nothing, and takes at most `step` bytes at each write. Contracts see what it holds.
    pub fn new(alloc: Global, step: usize) -> StepWriter
        ensures { result ≡ [] }
    {
        StepWriter {
            bytes: Vec::new(alloc),
            step,
            writes: 0,
            fails_at: None,
            marks: None,
        }
    }

    /// The same writer, of which the write of that number, from 0, fails.
    pub fn failing_at(self, write: u64) -> StepWriter
        ensures { result ≡ self }
    {
        StepWriter {
            fails_at: Some(write),
            ..self
        }
    }

    /// The same writer, which sets the mark once it holds so many bytes.
    pub fn marking(self, length: usize, mark: Mark) -> StepWriter
        ensures { result ≡ self }
    {
        StepWriter {
            marks: Some((length, mark)),
            ..self
        }
    }

    /// What it holds.
    pub fn written(&self) -> &[u8]
        ensures { result.now ≡ self.now }
    {
        self.bytes.as_slice()
    }

    /// Sets the mark, if there is one and enough bytes are held.
    fn mark(&self) {
        if let Some((length, mark)) = &self.marks {
            if self.bytes.len() >= *length {
                mark.store(true, Ordering::SeqCst);
            }
        }
    }
}

impl Write for StepWriter {
    ghost contents = { λ w. Some w };

    fn write(&mut self, buf: &[u8]) -> io::Result<usize> {
        let write = self.writes;
        self.writes = write.saturating_add(1);
        if self.fails_at == Some(write) {
            return Err(io::Error::from(ErrorKind::BrokenPipe));
        }
        let count = buf.len().min(self.step);
        self.bytes.extend_from_slice(&buf[..count])?;
        self.mark();
        Ok(count)
    }

    fn flush(&mut self) -> io::Result<()> {
        Ok(())
    }
}
