ghost use Rattle.std.specs.Prelude.{◌≡◌, ◌||◌, false, [], ℕ, List, None};
ghost use Rattle.std.specs.Borrow.{sem};
ghost use Rattle.loop_model.specs.Accounts.{closed_client};
ghost use Rattle.loop_model.specs.Clients.{client_value};
ghost use Rattle.loop_model.specs.Growing.{Grows};
ghost use Rattle.loop_model.specs.Reports.{told_client};
ghost use Rattle.loop_model.specs.Streams.{closed_turns};
ghost use Rattle.gateway_loop.specs.Clients.{FitsOn, MakesSteps, lingering, watched_by};
ghost use Rattle.gateway_model.specs.declared.event.Event.TheVariants.{HangUp, Piece};
ghost use Rattle.gateway_loop.specs.Rests.{is_watched, is_written, rests_client, waits_client};
ghost use Rattle.gateway_theory.specs.Told.{AddsEvent, TakesEvent};
ghost use Rattle.gateway_theory.specs.Values.{shown};
ghost use Rattle.wires.specs.Turns.{ended_of, given_of, got_of};

use crate::hints::Hints;
use crate::limits::{MOST_WRITES, is_not_after};
use crate::tokens::is_clients;
use branch_asking::Network;
use gateway_core::{CallId, ConnId, Core, ReplyEntry, ReplyHook, RequestLabel, deliver};
use http_pieces::Bytes;
use std::alloc::Global;
use std::marker::Model;
use wires::{Got, Outbox, PIECE, Ready, Sent, Wire};

/// A client: its stream, and its connection.
#[derive(Drop)]
pub(crate) struct Client<W: Wire> {
    wire: W,
    conn: ConnId,
    // its connection is closed: what comes is dropped, so that the last reply is not lost with it
    lingers: bool,
    // its stream brings nothing more
    has_ended: bool,
    // until when it lingers at most
    until: Option<u64>,
    outbox: Outbox,
    // the request whose reply waits in the outbox, what answers it, and what a log tells of it
    writing: Option<(CallId, ReplyEntry, RequestLabel)>,
    hints: Hints,
}

impl<W: Wire> Model for Client<W> {
    ghost use Rattle.std.specs.Prelude.{◌≡◌, None};
    ghost use Rattle.loop_model.specs.Clients.{ClientValue, client_value};
    ghost use Rattle.wires.specs.Turns.{ended_of, given_of, got_of};

    ghost Value = { ClientValue };

    ghost view = { λ c. client_value c.conn c.lingers (given_of (W.turns c.wire)) (got_of (W.turns c.wire)) (ended_of (W.turns c.wire)) c.outbox (W.reads c.wire) (W.writes c.wire) (W.watched c.wire) (W.reported c.wire) c.until };

    ghost invariant = { λ c. (ended_of (W.turns c.wire) ≡ c.has_ended) × (W.peer c.wire ≡ None) };
}

/// What reading a client's stream came to.
#[derive(Clone, Copy, PartialEq, Eq)]
pub(crate) enum Heard {
    /// Nothing that changes anything.
    Nothing,
    /// Bytes, which the core has taken.
    Piece,
    /// The same, and the connection broke, for want of memory.
    Broke,
    /// The stream's end, which the core was told.
    End,
}

/// What writing to a client's stream came to.
#[derive(Clone, Copy, PartialEq, Eq)]
pub(crate) enum Written {
    /// All that is there.
    All,
    /// Not all, and it would have to wait.
    Waits,
    /// Not all yet.
    More,
    /// The stream takes nothing more.
    Failed,
}

impl<W: Wire> Client<W> {
    ghost use Rattle.gateway_loop.specs.Hints.{LendsHints};

    /// The client of a new connection.
    pub(crate) fn new(alloc: Global, wire: W, conn: ConnId) -> Client<W>
        requires ended { ended_of (W.turns wire) ≡ false }
        requires peer { W.peer wire ≡ None }
        ensures { result ≡ client_value conn false (given_of (W.turns wire)) (got_of (W.turns wire)) (ended_of (W.turns wire)) [] (W.reads wire) (W.writes wire) (W.watched wire) (W.reported wire) None }
    {
        Client {
            wire,
            conn,
            lingers: false,
            has_ended: false,
            until: None,
            outbox: Outbox::of(Bytes::new(alloc)),
            writing: None,
            hints: Hints::new(alloc),
        }
    }

    /// What else is known of it.
    pub(crate) fn hints(&self) -> &Hints {
        &self.hints
    }

    /// The same, to be noted.
    pub(crate) fn hints_mut(&mut self) -> &mut Hints
        ensures* { sem 𝓛 (LendsHints W.row W.Wire self.entry result) }
    {
        &mut self.hints
    }

    /// Its stream.
    pub(crate) fn wire(&self) -> &W {
        &self.wire
    }

    /// Watches its stream by that token. False where it can't.
    pub(crate) fn watch<N: Network<W>>(&mut self, net: &mut N, token: usize) -> bool
        ensures same { self.new ≡ watched_by self.new.watched self.old }
        ensures net { N.value net.new ≡ N.value net.old }
    {
        net.watch(&mut self.wire, token, true)
    }

    /// Something became possible at its stream.
    pub(crate) fn report(&mut self, ready: Ready)
        ensures { self.new ≡ told_client ready self.old }
    {
        self.wire.report(ready);
    }

    /// Its stream, which is left.
    pub(crate) fn into_wire(self) -> W
        ensures { closed_turns (W.peer result) (W.turns result) ≡ closed_client self }
    {
        self.wire
    }

    /// Its connection.
    pub(crate) fn conn(&self) -> ConnId
        ensures { result ≡ self.now.conn }
    {
        self.conn
    }

    /// Whether its connection was closed.
    pub(crate) fn lingers(&self) -> bool
        ensures { result ≡ self.now.lingers }
    {
        self.lingers
    }

    /// Whether its stream brings nothing more.
    pub(crate) fn has_ended(&self) -> bool {
        self.has_ended
    }

    /// Until when it lingers at most.
    pub(crate) fn until(&self) -> Option<u64> {
        self.until
    }

    /// Whether all was written that was queued for it so far.
    fn is_written<H: ReplyHook + Drop>(&self, core: &Core<H>) -> bool
        ensures { result ≡ is_written (shown core.now) self.now }
    {
        self.outbox.is_empty() && core.untaken(self.conn) == 0
    }

    /// Whether its stream is watched by the token of that place, and for room to write too.
    fn is_watched(&self, place: usize) -> bool
        ensures { result ≡ is_watched place self.now.watched }
    {
        match self.wire.watched() {
            Some((token, for_writes)) => for_writes && is_clients(token, place),
            None => false,
        }
    }

    /// Whether nothing is to be done for it, in that place, before that moment.
    pub(crate) fn rests<H: ReplyHook + Drop>(
        &self,
        core: &Core<H>,
        until: Option<u64>,
        place: usize,
    ) -> bool
        ensures { result ≡ rests_client (shown core.now) until place self.now }
    {
        self.is_watched(place) && self.waits(core, until)
    }

    /// The same, but for how its stream is watched.
    fn waits<H: ReplyHook + Drop>(&self, core: &Core<H>, until: Option<u64>) -> bool
        ensures { result ≡ waits_client (shown core.now) until self.now }
    {
        let may_read = self.wire.may_read();
        if self.lingers {
            return !self.has_ended
                && !may_read
                && self.until.is_some()
                && is_not_after(until, self.until);
        }
        if !self.is_written(core) {
            return !self.wire.may_write();
        }
        !core.ended(self.conn) && (self.has_ended || !may_read)
    }

    /// Whether it is to be read: its stream may have bytes, and nothing waits to be written to it.
    pub(crate) fn is_to_be_read<H: ReplyHook + Drop>(&self, core: &Core<H>) -> bool {
        self.wire.may_read() && !self.has_ended && (self.lingers || self.is_written(core))
    }

    /// Whether a reply is there for it, or its connection, if that is open, no longer brings requests or replies.
    pub(crate) fn has_news<H: ReplyHook + Drop>(&self, core: &Core<H>) -> bool {
        !self.lingers() && (core.untaken(self.conn) > 0 || core.ended(self.conn))
    }

    /// Whether it is owed nothing, and brings nothing more.
    pub(crate) fn is_to_leave<H: ReplyHook + Drop>(&self, core: &Core<H>) -> bool {
        self.is_written(core) && core.ended(self.conn)
    }

    /// Whether its connection is open, each of its requests has its reply, and that was written. One whose last bytes
    /// made no request is not: its request may be half read.
    pub(crate) fn is_idle<H: ReplyHook + Drop>(&self, core: &Core<H>) -> bool {
        if self.lingers() || self.hints.is_half_read {
            return false;
        }
        core.is_idle(self.conn) && self.is_written(core)
    }

    /// Reads once, unless it brings nothing more, and hands on what came; if its connection was closed, it is dropped.
    pub(crate) fn read<H: ReplyHook + Drop>(&mut self, core: &mut Core<H>) -> Heard
        ensures steps { MakesSteps core.old core.new self.old self.new }
        ensures grows { Grows self.old self.new }
    {
        if self.has_ended {
            return Heard::Nothing;
        }
        let mut piece = [0u8; PIECE];
        match self.wire.read(&mut piece) {
            Got::Bytes(count) => {
                if self.lingers {
                    return Heard::Nothing;
                }
                take_in(core, self.conn, &piece[..count])
            }
            Got::Nothing => Heard::Nothing,
            Got::Interrupted => Heard::Nothing,
            Got::End(_) => {
                self.has_ended = true;
                if self.lingers {
                    return Heard::End;
                }
                hang_up(core, self.conn);
                Heard::End
            }
        }
    }

    /// Writes what can be written of the replies that are there.
    pub(crate) fn write<H: ReplyHook + Drop, N: Network<W>>(
        &mut self,
        core: &mut Core<H>,
        net: &mut N,
    ) -> Written
        ensures steps { MakesSteps core.old core.new self.old self.new }
        ensures grows { Grows self.old self.new }
        ensures net { N.value net.new ≡ N.value net.old }
    {
        for _write in 0..MOST_WRITES {
            self.fill(core);
            if let Some(written) = self.send(net) {
                return written;
            }
        }
        Written::More
    }

    /// Takes the next reply, if nothing waits.
    fn fill<H: ReplyHook + Drop>(&mut self, core: &mut Core<H>)
        ensures steps { MakesSteps core.old core.new self.old self.new }
        ensures grows { Grows self.old self.new }
    {
        if self.lingers() || !self.outbox.is_empty() {
            return;
        }
        let Some(reply) = core.take_reply(self.conn) else {
            return;
        };
        let (id, entry, bytes, label) = reply.into_parts();
        self.outbox = Outbox::of(bytes);
        self.writing = Some((id, entry, label));
    }

    /// Writes once of what waits. Answers what writing came to, if it goes on no more.
    fn send<N: Network<W>>(&mut self, net: &mut N) -> Option<Written>
        ensures fits { FitsOn self.old self.new }
        ensures grows { Grows self.old self.new }
        ensures net { N.value net.new ≡ N.value net.old }
    {
        if self.outbox.is_empty() {
            return Some(Written::All);
        }
        if !self.wire.may_write() {
            return Some(Written::Waits);
        }
        match self.wire.write(&self.outbox) {
            Sent::Bytes(count) => {
                self.outbox.sent(count);
                if self.outbox.is_empty() {
                    self.tell(net);
                }
                None
            }
            Sent::Nothing => None,
            Sent::Interrupted => Some(Written::More),
            Sent::Failed(_) => {
                self.tell(net);
                Some(Written::Failed)
            }
        }
    }

    /// Tells the reply that was being written.
    fn tell<N: Network<W>>(&mut self, net: &mut N)
        ensures same { self.new ≡ self.old }
        ensures net { N.value net.new ≡ N.value net.old }
    {
        let writing = self.writing.take();
        if let Some((id, entry, label)) = writing {
            net.tell_reply(&self.wire, id, &entry, &label);
        }
    }

    /// Ends its sending side. What still comes is dropped, until then at most.
    pub(crate) fn linger(&mut self, until: u64)
        ensures { self.new ≡ lingering until self.old }
    {
        self.wire.shut();
        self.lingers = true;
        self.until = Some(until);
    }
}

/// Hands on a piece of the connection's stream that came.
fn take_in<H: ReplyHook + Drop>(core: &mut Core<H>, conn: ConnId, piece: &[u8]) -> Heard
    ensures stands { TakesEvent (Piece conn piece.now) core.old core.new }
    ensures adds { AddsEvent (Piece conn piece.now) core.old core.new }
    ensures plans { core.new.plans ≡ core.old.plans }
{
    match deliver(core, conn, piece) {
        Ok(()) => Heard::Piece,
        Err(_) => Heard::Broke,
    }
}

/// Tells that the peer of the connection has hung up.
fn hang_up<H: ReplyHook + Drop>(core: &mut Core<H>, conn: ConnId)
    ensures stands { TakesEvent (HangUp conn) core.old core.new }
    ensures adds { AddsEvent (HangUp conn) core.old core.new }
    ensures plans { core.new.plans ≡ core.old.plans }
{
    let _ = core.hang_up(conn);
}
