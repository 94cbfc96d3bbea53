ghost use Rattle.loop_model.specs.Accounts.{NetworkValue};
ghost use Rattle.loop_model.specs.Streams.{closed_turns};
ghost use Rattle.std.specs.Prelude.{◌≡◌, ◌∷◌, ◌++◌, [], false, true, None, Some, IsFalse, IsTrue};

use crate::branch_end::BranchEnd;
use gateway_core::{CallId, ConnId, Job, ReplyEntry, RequestLabel};
use std::net::SocketAddr;
use wires::Wire;

/// What a loop needs besides its clients' streams. None of its functions waits.
pub trait Network<W: Wire> {
    // for proofs: what it did so far
    ghost value: { Self → NetworkValue };

    /// The present moment, in milliseconds since the start. It is never less than one that was told before.
    fn moment(&mut self) -> u64
        ensures told { value self.new ≡ record (value self.old) { told = (value self.old).told ++ result ∷ [] } };

    /// Begins to connect to the address, over which so many bytes at most will be written. Where it can't, the answer
    /// is a wire whose first write fails.
    fn connect(&mut self, address: SocketAddr, length: usize) -> W
        ensures made { value self.new ≡ record (value self.old) { made = (value self.old).made ++ address ∷ [] } }
        ensures peer { W.peer result ≡ Some address }
        ensures turns { W.turns result ≡ [] }
        ensures may { (W.reads result ≡ false) × (W.writes result ≡ true) }
        ensures watched { W.watched result ≡ None }
        ensures reported { W.reported result ≡ [] };

    /// Closes the stream.
    fn close(&mut self, wire: W)
        ensures closed { value self.new ≡ record (value self.old) {
          closed = (value self.old).closed ++ closed_turns (W.peer wire) (W.turns wire) ∷ [];
        } };

    /// Watches the wire: whenever bytes come, its end, or, with `writes`, room to write, a `Ready` of this token tells
    /// so once. False where it can't.
    fn watch(&mut self, wire: &mut W, token: usize, writes: bool) -> bool
        ensures same { value self.new ≡ value self.old }
        ensures watched { IsTrue result → W.watched wire.new ≡ Some (token, writes) }
        ensures peer { W.peer wire.new ≡ W.peer wire.old }
        ensures turns { W.turns wire.new ≡ W.turns wire.old }
        ensures may { (W.reads wire.new ≡ W.reads wire.old) × (W.writes wire.new ≡ W.writes wire.old) }
        ensures reported { W.reported wire.new ≡ W.reported wire.old };

    /// Has the name, `host:port`, looked up: a `LookedUp` tells later what came of it. False where it can't.
    fn look_up(&mut self, name: &str) -> bool
        ensures asked { IsTrue result → value self.new ≡ record (value self.old) { asked = (value self.old).asked ++ name.now ∷ [] } }
        ensures same { IsFalse result → value self.new ≡ value self.old };

    /// Is told that the reply to this request was written whole to the client, or that its write failed. The label is
    /// what a log tells of the request.
    fn tell_reply(&mut self, client: &W, id: CallId, entry: &ReplyEntry, label: &RequestLabel)
        ensures same { value self.new ≡ value self.old };

    /// Is told that the connection of this client broke, for want of memory. What was queued for it was written, or its
    /// stream takes nothing more.
    fn tell_broken(&mut self, client: &W, conn: ConnId)
        ensures same { value self.new ≡ value self.old };

    /// Is told that a stream was closed without a byte: there was no memory for it, or it could not be watched.
    fn tell_unserved(&mut self)
        ensures same { value self.new ≡ value self.old };

    /// Is told that the backend of a branch will not be asked, before the reply to its call is told: that call ended
    /// while the job waited for a place.
    fn tell_unasked(&mut self, job: &Job)
        ensures same { value self.new ≡ value self.old };

    /// Is told what asking the backend of a branch came to, before the reply to its call is told.
    fn tell_branch(&mut self, end: &BranchEnd)
        ensures same { value self.new ≡ value self.old };
}
