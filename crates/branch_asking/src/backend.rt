ghost use Rattle.std.specs.Prelude.{◌≡◌, ◌||◌, ◌++◌, ◌∷◌, [], Some, IsTrue, false};
ghost use Rattle.branch_asking.specs.Asking.{HasLookedAt, backend_value, with_turns};
ghost use Rattle.loop_model.specs.Asking.{is_used_by};
ghost use Rattle.loop_model.specs.Streams.{closed_stream, closed_turns, share_value, stream_value};
ghost use Rattle.wires.specs.Turns.{BringsWithin, Quiet, TakesWithin, turns_of_read, turns_of_write};
ghost use Rattle.wires.specs.declared.got.Got.TheVariants as got;
ghost use Rattle.wires.specs.Wires.{is_to_read};

use crate::network::Network;
use crate::shares::{Share, Shares};
use connect_codec::Outcome;
use gateway_core::Job;
use std::marker::Model;
use std::net::SocketAddr;
use wires::{Got, Outbox, PIECE, Ready, Sent, Wire};

/// A stream to a backend. Contracts see the address that it was connected to, the shares that jobs had of it, the turns
/// since the last of these ended, and what may be done.
#[derive(Drop)]
pub struct Backend<W: Wire> {
    wire: W,
    peer: SocketAddr,
    // the moment at which it was made, and how many jobs went over it
    opened: u64,
    uses: u32,
    // whether bytes came while nobody waited for a reply
    has_unasked: bool,
    // for proofs: the shares that jobs had of it
    before: Shares,
}

impl<W: Wire> Model for Backend<W> {
    ghost use Rattle.std.specs.Prelude.{◌≡◌, ◌==◌, Some, not};
    ghost use Rattle.branch_asking.specs.Asking.{BackendValue, backend_value, own_turns};
    ghost use Rattle.gateway_model.specs.Queue.{IsPrefixOf};
    ghost use Rattle.loop_model.specs.Asking.{is_used_by};
    ghost use Rattle.loop_model.specs.Streams.{stream_value, turns_of};

    ghost Value = { BackendValue };

    ghost view = { λ b. backend_value (stream_value b.peer b.before.items (own_turns b.before.items (W.turns b.wire))) (W.reads b.wire) (W.writes b.wire) (W.watched b.wire) (W.reported b.wire) };

    ghost invariant = { λ b. (W.peer b.wire ≡ Some b.peer) × IsPrefixOf (turns_of b.before.items) (W.turns b.wire)
        × (is_used_by b.before.items ≡ not (b.uses == 0)) };
}

impl<W: Wire> Backend<W> {
    /// Begins to connect to the address at that moment. So many bytes at most will be written over it.
    pub(crate) fn connect<N: Network<W>>(
        net: &mut N,
        address: SocketAddr,
        length: usize,
        moment: u64,
    ) -> Backend<W>
        ensures fresh { result.stream ≡ stream_value address [] [] }
        ensures made { N.value net.new ≡ record (N.value net.old) { made = (N.value net.old).made ++ address ∷ [] } }
    {
        Backend {
            wire: net.connect(address, length),
            peer: address,
            opened: moment,
            uses: 0,
            has_unasked: false,
            before: Shares::new(),
        }
    }

    /// Watches it by that token, for room to write too with `writes`. False where it can't.
    pub(crate) fn watch<N: Network<W>>(&mut self, net: &mut N, token: usize, writes: bool) -> bool
        ensures same { self.new ≡ record self.old { watched = self.new.watched } }
        ensures net { N.value net.new ≡ N.value net.old }
    {
        net.watch(&mut self.wire, token, writes)
    }

    /// Something became possible.
    pub fn report(&mut self, ready: Ready)
        ensures { self.new ≡ backend_value self.old.stream (self.old.reads || is_to_read ready) (self.old.writes || ready.writable) self.old.watched (self.old.reported ++ ready ∷ []) }
    {
        self.wire.report(ready);
    }

    /// Whether a read may bring something.
    pub fn may_read(&self) -> bool
        ensures { result ≡ self.now.reads }
    {
        self.wire.may_read()
    }

    /// Whether a write may be taken.
    pub(crate) fn may_write(&self) -> bool
        ensures { result ≡ self.now.writes }
    {
        self.wire.may_write()
    }

    /// By what token it is watched, and whether for room to write too.
    pub fn watched(&self) -> Option<(usize, bool)>
        ensures { result ≡ self.now.watched }
    {
        self.wire.watched()
    }

    /// Whether it is watched by that token, and for room to write too, if it is to be.
    pub(crate) fn is_watched_by(&self, token: usize, writes: bool) -> bool {
        self.watched()
            .is_some_and(|(by, for_writes)| by == token && (for_writes || !writes))
    }

    #[tactic(auto, using(crate::proofs::StreamLemmas::used_more))]
    /// The job's share of it has ended with this outcome.
    pub(crate) fn end_share(&mut self, job: &Job, outcome: &Option<Outcome>)
        ensures { self.new.stream ≡ stream_value self.old.stream.peer
            (self.old.stream.before ++ share_value job.now.job self.old.stream.turns outcome.now ∷ []) [] }
    {
        self.before = self.before.and(&Share {
            stream: &*self,
            job,
            outcome,
        });
        self.uses = self.uses.saturating_add(1);
    }

    /// The moment at which it was made.
    pub fn opened(&self) -> u64 {
        self.opened
    }

    /// Whether jobs went over it before.
    pub(crate) fn is_used(&self) -> bool
        ensures { result ≡ is_used_by self.now.stream.before }
    {
        self.uses != 0
    }

    /// How many jobs went over it.
    pub fn uses(&self) -> u32 {
        self.uses
    }

    /// Whether a read that was to find nothing found bytes.
    pub fn has_unasked(&self) -> bool {
        self.has_unasked
    }

    /// Its wire, which may be closed.
    pub fn into_wire(self) -> W
        ensures { closed_turns (W.peer result) (W.turns result) ≡ closed_stream self.stream }
    {
        let Backend {
            wire,
            peer: _,
            opened: _,
            uses: _,
            has_unasked: _,
            before: _,
        } = self;
        wire
    }

    /// Reads once, into the first places of the piece.
    pub(crate) fn read(&mut self, piece: &mut [u8; PIECE]) -> Got
        ensures turns { self.new.stream ≡ with_turns (turns_of_read piece.new result) self.old.stream }
        ensures within { BringsWithin piece.new result }
        ensures reported { self.new.reported ≡ self.old.reported }
        ensures unread { result ≡ got.Nothing → self.new.reads ≡ false }
        ensures watched { self.new.watched ≡ self.old.watched }
    {
        self.wire.read(piece)
    }

    /// Reads once. Whether nothing was there: no byte, no end, and no failure.
    pub fn is_quiet(&mut self) -> bool
        ensures looked { HasLookedAt self.old.stream self.new.stream }
        ensures quiet { IsTrue result → self.new.stream ≡ with_turns (Quiet ∷ []) self.old.stream }
        ensures unread { IsTrue result → self.new.reads ≡ false }
        ensures watched { self.new.watched ≡ self.old.watched }
    {
        let mut piece = [0u8; PIECE];
        let got = self.read(&mut piece);
        self.has_unasked |= matches!(got, Got::Bytes(_));
        got == Got::Nothing
    }

    /// Writes once of what waits, from its first byte on.
    pub(crate) fn write(&mut self, outbox: &Outbox) -> Sent
        ensures turns { self.new.stream ≡ with_turns (turns_of_write outbox.now result) self.old.stream }
        ensures within { TakesWithin outbox.now result }
        ensures reported { self.new.reported ≡ self.old.reported }
    {
        self.wire.write(outbox)
    }
}
