ghost use Rattle.std.specs.Prelude.{◌≤◌, length, IfOk};
ghost use Rattle.std.specs.Counts.{IsPrefixLen};

use std::alloc::{AllocError, Global};
use std::cell::{RefCell, RefMut};
use std::collections::VecDeque;
use std::io::{self, ErrorKind, Read, Write};
use std::rc::Rc;
use wires::Stream;

/// What a read or a write of a stream over memory comes to.
#[derive(Clone, Copy, PartialEq, Eq, Debug)]
pub enum StreamStep {
    /// It moves so many bytes at most.
    Moves(usize),
    /// It would have to wait.
    Waits,
    /// A signal comes first.
    Interrupted,
    /// It fails so.
    Fails(ErrorKind),
}

/// A stream over memory that does not wait. Its reads and writes follow a script each, and behind it move all that
/// they can. Its end (`MemoryEnd`) tells what was written.
#[derive(Drop)]
pub struct MemoryStream {
    // none where no connection could be made
    state: Option<Rc<RefCell<StreamState>>>,
}

/// The other end of a stream over memory.
#[derive(Drop)]
pub struct MemoryEnd {
    state: Rc<RefCell<StreamState>>,
}

#[derive(Drop)]
struct StreamState {
    /// What is to be read, of which so many bytes were.
    input: Vec<u8>,
    read: usize,
    /// Behind the input comes the end.
    has_ended: bool,
    written: Vec<u8>,
    writes: u64,
    is_shut: bool,
    reading: VecDeque<StreamStep>,
    writing: VecDeque<StreamStep>,
}

/// A stream and its other end.
pub fn memory_stream(alloc: Global) -> Result<(MemoryStream, MemoryEnd), AllocError> {
    let state = StreamState {
        input: Vec::new(alloc),
        read: 0,
        has_ended: false,
        written: Vec::new(alloc),
        writes: 0,
        is_shut: false,
        reading: VecDeque::new(alloc),
        writing: VecDeque::new(alloc),
    };
    let state = Rc::new(alloc, RefCell::new(state))?;
    let end = MemoryEnd {
        state: state.clone()?,
    };
    Ok((MemoryStream { state: Some(state) }, end))
}

impl MemoryStream {
    /// A stream whose reads and writes fail: no connection could be made.
    pub fn refused() -> MemoryStream {
        MemoryStream { state: None }
    }

    fn state(&self) -> io::Result<RefMut<'_, StreamState>> {
        match &self.state {
            Some(state) => Ok(state.try_borrow_mut()?),
            None => Err(io::Error::from(ErrorKind::ConnectionRefused)),
        }
    }
}

impl MemoryEnd {
    /// These bytes are to be read next.
    pub fn send(&self, bytes: &[u8]) -> io::Result<()> {
        self.state.try_borrow_mut()?.input.extend_from_slice(bytes)?;
        Ok(())
    }

    /// Behind what is to be read comes the end.
    pub fn end(&self) -> io::Result<()> {
        self.state.try_borrow_mut()?.has_ended = true;
        Ok(())
    }

    /// The next read that the script does not tell of yet comes to this.
    pub fn read_next(&self, step: StreamStep) -> io::Result<()> {
        self.state.try_borrow_mut()?.reading.push_back(step)?;
        Ok(())
    }

    /// The next write that the script does not tell of yet comes to this.
    pub fn write_next(&self, step: StreamStep) -> io::Result<()> {
        self.state.try_borrow_mut()?.writing.push_back(step)?;
        Ok(())
    }

    /// All that was written.
    pub fn written(&self, alloc: Global) -> io::Result<Vec<u8>> {
        let state = self.state.try_borrow()?;
        Ok(Vec::from_slice(alloc, state.written.as_slice())?)
    }

    /// How many writes took bytes.
    pub fn writes(&self) -> io::Result<u64> {
        Ok(self.state.try_borrow()?.writes)
    }

    /// How many bytes were read.
    pub fn read(&self) -> io::Result<usize> {
        Ok(self.state.try_borrow()?.read)
    }

    /// Whether the stream's sending side was ended.
    pub fn is_shut(&self) -> io::Result<bool> {
        Ok(self.state.try_borrow()?.is_shut)
    }

    /// Whether the stream was closed.
    pub fn is_closed(&self) -> bool {
        Rc::strong_count(&self.state) == 1
    }
}

impl StreamState {
    fn read_into(&mut self, buf: &mut [u8]) -> io::Result<usize>
        ensures { IfOk result (λ n. IsPrefixLen n buf.new) }
    {
        let most = most_of(self.reading.pop_front())?;
        let left = self.input.get(self.read..).unwrap_or(&[]);
        if left.is_empty() && !self.has_ended {
            return Err(io::Error::from(ErrorKind::WouldBlock));
        }
        let count = left.len().min(buf.len()).min(most);
        buf[..count].copy_from_slice(&left[..count]);
        self.read = self.read.saturating_add(count);
        Ok(count)
    }

    fn write_from(&mut self, buf: &[u8]) -> io::Result<usize>
        ensures { IfOk result (λ n. n ≤ length buf.now) }
    {
        let most = most_of(self.writing.pop_front())?;
        let count = buf.len().min(most);
        self.written.extend_from_slice(&buf[..count])?;
        self.writes = self.writes.saturating_add(1);
        Ok(count)
    }
}

/// How many bytes a step moves at most.
fn most_of(step: Option<StreamStep>) -> io::Result<usize> {
    match step {
        None => Ok(usize::MAX),
        Some(StreamStep::Moves(most)) => Ok(most),
        Some(StreamStep::Waits) => Err(io::Error::from(ErrorKind::WouldBlock)),
        Some(StreamStep::Interrupted) => Err(io::Error::from(ErrorKind::Interrupted)),
        Some(StreamStep::Fails(kind)) => Err(io::Error::from(kind)),
    }
}

impl Read for MemoryStream {
    fn read(&mut self, buf: &mut [u8]) -> io::Result<usize> {
        self.state()?.read_into(buf)
    }
}

impl Write for MemoryStream {
    fn write(&mut self, buf: &[u8]) -> io::Result<usize> {
        self.state()?.write_from(buf)
    }

    fn flush(&mut self) -> io::Result<()> {
        Ok(())
    }
}

impl Stream for MemoryStream {
    fn shut_sending(&self) -> io::Result<()> {
        self.state()?.is_shut = true;
        Ok(())
    }
}
