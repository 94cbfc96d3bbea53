ghost use Rattle.std.specs.Prelude.{⊤};

use admin::{Asked, Door, take_in};
use http_pieces::{Bytes, Reader};
use mio::net::TcpStream;
use std::alloc::Global;
use std::io::{ErrorKind, Read, Write};
use std::marker::Model;
use std::net::Shutdown;
use wires::{Outbox, PIECE};

/// So often a stream is read at most when it is looked at.
const MOST_READS: u32 = 64;

/// So often it is written at most.
const MOST_WRITES: u32 = 1_024;

/// Who came to the address for operators: asks once, and is answered once.
#[derive(Drop)]
pub(crate) struct Visitor {
    stream: TcpStream,
    reader: Reader,
    outbox: Outbox,
    has_asked: bool,
    has_ended: bool,
    is_shut: bool,
    // the moment at which something came of it last
    heard: u64,
    // the moment at which it has to go
    pub(crate) until: u64,
}

// Clauses see nothing of it, which keeps proofs small.
impl Model for Visitor {
    ghost Value = { ⊤ };

    ghost view = { λ _. tt };
}

/// What looking at a visitor came to.
#[derive(Clone, Copy, PartialEq, Eq, Debug)]
pub(crate) enum Seen {
    /// It may stay.
    Stays,
    /// It asks for that.
    Asks(Asked),
    /// It is to go.
    Goes,
}

impl Visitor {
    /// One that came at that moment, and has to go at the other.
    pub(crate) fn new(alloc: Global, stream: TcpStream, moment: u64, until: u64) -> Visitor {
        Visitor {
            stream,
            reader: Reader::new(alloc),
            outbox: Outbox::of(Bytes::new(alloc)),
            has_asked: false,
            has_ended: false,
            is_shut: false,
            heard: moment,
            until,
        }
    }

    /// Its stream.
    pub(crate) fn stream(&mut self) -> &mut TcpStream {
        &mut self.stream
    }

    /// Since when nothing came of it, if it has not asked yet.
    pub(crate) fn silent_since(&self) -> Option<u64> {
        (!self.has_asked).then_some(self.heard)
    }

    /// These bytes are its answer.
    pub(crate) fn answer(&mut self, bytes: Bytes) {
        self.outbox = Outbox::of(bytes);
    }

    /// Reads what is there at that moment, until it asks for something at that door. What comes behind that is dropped,
    /// so that its answer is not lost with it.
    pub(crate) fn hear(&mut self, door: Door<'_>, moment: u64) -> Seen {
        for _read in 0..MOST_READS {
            let mut piece = [0u8; PIECE];
            match self.stream.read(&mut piece) {
                Ok(0) => {
                    self.has_ended = true;
                    return if self.has_asked {
                        Seen::Stays
                    } else {
                        Seen::Goes
                    };
                }
                Ok(count) => {
                    self.heard = moment;
                    if let Some(seen) = self.take_in(&piece[..count], door) {
                        return seen;
                    }
                }
                Err(error) => match error.kind() {
                    ErrorKind::WouldBlock => return Seen::Stays,
                    ErrorKind::Interrupted => {}
                    _ => return Seen::Goes,
                },
            }
        }
        Seen::Stays
    }

    fn take_in(&mut self, piece: &[u8], door: Door<'_>) -> Option<Seen> {
        if self.has_asked {
            return None;
        }
        match take_in(&mut self.reader, piece, door) {
            Ok(Some(asked)) => {
                self.has_asked = true;
                Some(Seen::Asks(asked))
            }
            Ok(None) => None,
            Err(_) => Some(Seen::Goes),
        }
    }

    /// Writes what can be written of its answer. Once all is written it may go.
    pub(crate) fn tell(&mut self) -> Seen {
        for _write in 0..MOST_WRITES {
            if self.outbox.is_empty() {
                return self.shut();
            }
            match self.stream.write(self.outbox.waiting()) {
                Ok(0) => return Seen::Goes,
                Ok(count) => self.outbox.sent(count),
                Err(error) => match error.kind() {
                    ErrorKind::WouldBlock => return Seen::Stays,
                    ErrorKind::Interrupted => {}
                    _ => return Seen::Goes,
                },
            }
        }
        Seen::Stays
    }

    /// Nothing waits to be written: behind its answer its stream is shut, and read to its end.
    fn shut(&mut self) -> Seen {
        if self.has_asked && self.has_ended {
            return Seen::Goes;
        }
        if self.has_asked && !self.is_shut {
            self.is_shut = true;
            let _ = self.stream.shutdown(Shutdown::Write);
        }
        Seen::Stays
    }
}
