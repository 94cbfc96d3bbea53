ghost use Rattle.std.specs.Prelude.{◌≡◌, ◌++◌, ◌∷◌, [], false, true, None, Some};
ghost use Rattle.wires.specs.Turns.{Over};

use crate::got::{Got, Sent};
use crate::outbox::Outbox;
use crate::ready::Ready;
use crate::turns::{Did, Turns};
use crate::wire::{PIECE, Wire};
use http_server::Log;
use std::io::{self, ErrorKind, Read, Write};
use std::marker::Model;
use std::net::SocketAddr;

/// A stream whose reads and writes do not wait: where they would have to, they fail by `WouldBlock`.
pub trait Stream: Read + Write {
    /// Ends the sending side: the peer reads what was written before, and then the end.
    fn shut_sending(&self) -> io::Result<()>;
}

/// Any stream as a `Wire`, whether or not it tells its bytes: proofs see, in order, those that its reads put into the
/// piece and those that its writes said to have taken, and which reads found nothing or the end.
#[derive(Drop)]
pub struct Told<S> {
    stream: S,
    peer: Option<SocketAddr>,
    may_read: bool,
    may_write: bool,
    // whether an end or an urgent mark was reported: a read may stop short of what is there
    may_stop: bool,
    watched: Option<(usize, bool)>,
    // for proofs
    turns: Turns,
    reported: Log<Ready, ()>,
}

impl<S> Model for Told<S> {
    ghost use Rattle.wires.specs.Telling.{KeepsStop, ToldValue, told_value};

    ghost Value = { ToldValue };

    ghost view = { λ t. told_value t.peer t.turns.items t.may_read t.may_write t.watched t.reported.items };

    ghost invariant = { λ t. KeepsStop t.may_stop t.reported.items };
}

impl<S: Stream> Told<S> {
    /// A stream that was connected to that address, or accepted, and to which nothing was done yet: it may be written,
    /// and is not known to have bytes.
    pub fn new(stream: S, peer: Option<SocketAddr>) -> Told<S>
        ensures peer { ⟦<Told<S> as Wire>⟧.peer result ≡ peer }
        ensures turns { ⟦<Told<S> as Wire>⟧.turns result ≡ [] }
        ensures reads { ⟦<Told<S> as Wire>⟧.reads result ≡ false }
        ensures writes { ⟦<Told<S> as Wire>⟧.writes result ≡ true }
        ensures watched { ⟦<Told<S> as Wire>⟧.watched result ≡ None }
        ensures reported { ⟦<Told<S> as Wire>⟧.reported result ≡ [] }
    {
        Told {
            stream,
            peer,
            may_read: false,
            may_write: true,
            may_stop: false,
            watched: None,
            turns: Turns::new(),
            reported: Log::new(),
        }
    }
}

impl<S> Told<S> {
    /// The stream.
    pub fn stream(&self) -> &S {
        &self.stream
    }

    /// It is watched, for room to write too with `writes`: what is reported of this token is reported of it.
    pub fn note_watched(&mut self, token: usize, writes: bool)
        ensures { self.new ≡ record self.old { watched = Some (token, writes) } }
    {
        self.watched = Some((token, writes));
    }

    /// A read found the end, or failed so.
    fn end(&mut self, kind: Option<ErrorKind>) -> Got
        ensures result { result ≡ Got.End kind }
        ensures ended { self.new ≡ record self.old { turns = self.old.turns ++ Over ∷ []; reads = false } }
    {
        self.turns = self.turns.and(&Did::Over);
        self.may_read = false;
        Got::End(kind)
    }
}

impl<S: Stream> Wire for Told<S> {
    ghost peer = { λ t. t.peer };

    ghost turns = { λ t. t.turns };

    ghost reads = { λ t. t.reads };

    ghost writes = { λ t. t.writes };

    ghost watched = { λ t. t.watched };

    ghost reported = { λ t. t.reported };

    fn report(&mut self, ready: Ready) {
        self.may_read = self.may_read || ready.is_to_read();
        self.may_write = self.may_write || ready.writable;
        self.may_stop = self.may_stop || ready.is_stop();
        self.reported = self.reported.and(&ready, &());
    }

    fn may_read(&self) -> bool {
        self.may_read
    }

    fn may_write(&self) -> bool {
        self.may_write
    }

    fn watched(&self) -> Option<(usize, bool)> {
        self.watched
    }

    fn read(&mut self, piece: &mut [u8; PIECE]) -> Got {
        match self.stream.read(piece) {
            Ok(0) => self.end(None),
            Ok(count) => {
                self.turns = self.turns.and(&Did::Came(piece, count));
                // one that left room has found all that was there
                self.may_read = self.may_read && (self.may_stop || count >= PIECE);
                Got::Bytes(count)
            }
            Err(error) => match error.kind() {
                ErrorKind::WouldBlock => {
                    self.turns = self.turns.and(&Did::Quiet);
                    self.may_read = false;
                    Got::Nothing
                }
                ErrorKind::Interrupted => Got::Interrupted,
                kind => self.end(Some(kind)),
            },
        }
    }

    fn write(&mut self, outbox: &Outbox) -> Sent {
        match self.stream.write(outbox.waiting()) {
            Ok(0) => Sent::Failed(ErrorKind::WriteZero),
            Ok(count) => {
                self.turns = self.turns.and(&Did::Went(outbox, count));
                Sent::Bytes(count)
            }
            Err(error) => match error.kind() {
                ErrorKind::WouldBlock => {
                    self.may_write = false;
                    Sent::Nothing
                }
                ErrorKind::Interrupted => Sent::Interrupted,
                kind => Sent::Failed(kind),
            },
        }
    }

    fn shut(&mut self) {
        let _ = self.stream.shut_sending();
    }
}
