ghost use Rattle.std.specs.Prelude.{◌≡◌, ◌||◌, ◌++◌, ◌∷◌, [], Bool, ℕ, List, Option};
ghost use Rattle.wires.specs.Turns.{BringsWithin, TakesWithin, Turn, turns_of_read, turns_of_write};
ghost use Rattle.wires.specs.Wires.{has_stop, is_to_read, reads_after, writes_after};
ghost use Rattle.std.specs.declared.net.socket_addr.SocketAddr.{SocketAddr};
ghost use Rattle.wires.specs.declared.ready.Ready.{Ready};

use crate::got::{Got, Sent};
use crate::outbox::Outbox;
use crate::ready::Ready;

/// How many bytes one read brings at most.
pub const PIECE: usize = 4096;

/// A stream whose reads and writes do not wait. It knows what may be done: a report sets that, and what would have had
/// to wait clears it.
pub trait Wire {
    // for proofs: the address that it was connected to; None of one that was accepted
    ghost peer: { Self → Option SocketAddr };

    // for proofs: what was done at it, in order
    ghost turns: { Self → List Turn };

    // for proofs: whether a read may bring something, and a write be taken, by all that was reported and answered
    ghost reads: { Self → Bool };

    ghost writes: { Self → Bool };

    // for proofs: the token by which it was watched last, and whether for room to write too; and all that was reported
    ghost watched: { Self → Option (ℕ × Bool) };

    ghost reported: { Self → List Ready };

    /// Is told what became possible.
    fn report(&mut self, ready: Ready)
        ensures turns { turns self.new ≡ turns self.old }
        ensures reads { reads self.new ≡ (reads self.old || is_to_read ready) }
        ensures writes { writes self.new ≡ (writes self.old || ready.writable) }
        ensures watched { watched self.new ≡ watched self.old }
        ensures reported { reported self.new ≡ reported self.old ++ ready ∷ [] }
        ensures peer { peer self.new ≡ peer self.old };

    /// Whether a read may bring something.
    fn may_read(&self) -> bool
        ensures { result ≡ reads self.now };

    /// Whether a write may be taken.
    fn may_write(&self) -> bool
        ensures { result ≡ writes self.now };

    /// By what token it is watched, and whether for room to write too; None before it is.
    fn watched(&self) -> Option<(usize, bool)>
        ensures { result ≡ watched self.now };

    /// Reads once, into the first places of the piece.
    fn read(&mut self, piece: &mut [u8; PIECE]) -> Got
        ensures turns { turns self.new ≡ turns self.old ++ turns_of_read piece.new result }
        ensures within { BringsWithin piece.new result }
        ensures reads { reads self.new ≡ reads_after (has_stop (reported self.old)) (reads self.old) result }
        ensures writes { writes self.new ≡ writes self.old }
        ensures watched { watched self.new ≡ watched self.old }
        ensures reported { reported self.new ≡ reported self.old }
        ensures peer { peer self.new ≡ peer self.old };

    /// Writes once of what waits, from its first byte on.
    fn write(&mut self, outbox: &Outbox) -> Sent
        ensures turns { turns self.new ≡ turns self.old ++ turns_of_write outbox.now result }
        ensures within { TakesWithin outbox.now result }
        ensures reads { reads self.new ≡ reads self.old }
        ensures writes { writes self.new ≡ writes_after (writes self.old) result }
        ensures watched { watched self.new ≡ watched self.old }
        ensures reported { reported self.new ≡ reported self.old }
        ensures peer { peer self.new ≡ peer self.old };

    /// Ends its sending side: the peer reads what was written before, and then the end.
    fn shut(&mut self)
        ensures turns { turns self.new ≡ turns self.old }
        ensures reads { reads self.new ≡ reads self.old }
        ensures writes { writes self.new ≡ writes self.old }
        ensures watched { watched self.new ≡ watched self.old }
        ensures reported { reported self.new ≡ reported self.old }
        ensures peer { peer self.new ≡ peer self.old };
}
