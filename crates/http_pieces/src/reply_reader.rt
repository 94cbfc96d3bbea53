ghost use Rattle.std.specs.Prelude.{◌≡◌, ◌<◌, ◌≤◌, ◌++◌, [], ℕ, List, length, take, IfOk, IfSome, OnErr, Ok, true, Option, Some, None, IfNone, MatchOption, ◌⊎◌};
ghost use Rattle.http_pieces.specs.declared.framing.Framing.TheVariants as framing;
ghost use Rattle.http_pieces.specs.declared.reply.HttpReply.{HttpReply};
ghost use Rattle.http_pieces.specs.Looked.{Counts, most_looked};
ghost use Rattle.http_pieces.specs.ReplyReader.{HasReadReply, TakesShortestReply, is_over_reply, reader_framing, reply_reader_value, state_of_reply, Partial, Waiting, Done};

use crate::decoding::{Decoding, reply_from};
use crate::framing::Framing;
use crate::phase::{Phase, drop_front};
use crate::reply::HttpReply;
use crate::reply_fault::ReplyFault;
use crate::reply_head::ReplyHead;
use crate::reply_push::push_reply;
use crate::reply_state::ReplyState;
use std::alloc::{AllocError, Global};
use std::marker::Model;
use std::mem;

/// Reads one reply of a backend from pieces of its bytes.
#[derive(Drop)]
pub struct ReplyReader {
    /// How bodies may be framed.
    framing: Framing,
    /// The bytes of the reply, behind the CR LF pairs that lead it, and up to its chunks.
    bytes: Vec<u8>,
    phase: Phase<ReplyHead, ReplyFault>,
    /// What came of its chunks.
    decoding: Decoding,
    /// How many bytes were looked at.
    looked: u64,
}

impl Model for ReplyReader {
    ghost use Rattle.http_pieces.specs.ReplyReader.{ReplyReaderValue};
    ghost use Rattle.http_pieces.specs.ReplyLayout.{reply_value_of, IsReplyReaderSound};

    ghost Value = { ReplyReaderValue };

    ghost view = { λ r. reply_value_of r.framing r.bytes.items r.phase r.decoding r.looked };

    ghost invariant = { λ r. IsReplyReaderSound r.framing r.bytes.items r.phase r.decoding r.looked };
}

impl ReplyReader {
    /// A reader of a reply from its first byte on, whose body has a fixed length. Its buffer lies on this allocator.
    pub fn new(alloc: Global) -> ReplyReader
        ensures reader { result ≡ reply_reader_value (Partial []) }
        ensures reads { HasReadReply result [] None }
    {
        ReplyReader::with_framing(alloc, Framing::Fixed)
    }

    /// The same of a reply whose body may be framed so.
    pub fn with_framing(alloc: Global, framing: Framing) -> ReplyReader
        ensures reader { result ≡ reader_framing framing (Partial []) }
        ensures reads { HasReadReply result [] None }
    {
        ReplyReader {
            framing,
            bytes: Vec::new(alloc),
            phase: Phase::Head(0),
            decoding: Decoding::No,
            looked: 0,
        }
    }

    /// Takes bytes up to the end of the reply, and answers how many. With the reply waiting it takes
    /// none; after a fault, or once the reply was taken, it takes all and drops them, as it does with
    /// a piece that leads to a fault. Without memory the reader stays as it was.
    pub fn push(&mut self, piece: &[u8]) -> Result<usize, AllocError>
        ensures within { IfOk result (λ n. n ≤ length piece.now) }
        ensures reads { (bytes : List ℕ) (given : Option HttpReply) → HasReadReply self.old bytes given
            → IfOk result (λ n. HasReadReply self.new (bytes ++ take n piece.now) given) }

        // In `More` it takes the shortest prefix that makes the whole reply, and else all.
        ensures takes { IfOk result (TakesShortestReply self.old self.new piece.now) }
        ensures moves { 0 < length piece.now
            → IfOk result (λ n. (0 < n) ⊎ ((q : HttpReply) × (self.old.reading ≡ Waiting q))) }
        ensures err { OnErr result (self.new ≡ self.old) }

        // With the reply waiting it takes none, and after a fault or the reply all: neither needs memory.
        ensures waits { (q : HttpReply) → self.old.reading ≡ Waiting q → (result ≡ Ok 0) × (self.new ≡ self.old) }
        ensures over { is_over_reply self.old.reading ≡ true
            → (result ≡ Ok (length piece.now)) × (self.new ≡ self.old) }

        // Each byte that is looked at is counted. `reads` says that they are at most twice those taken.
        ensures looks { (left : List ℕ) → self.old.reading ≡ Partial left
            → IfOk result (λ n. Counts self.old.looked self.new.looked left (left ++ take n piece.now)) }
    {
        push_reply(
            self.framing,
            &mut self.bytes,
            &mut self.phase,
            &mut self.decoding,
            &mut self.looked,
            piece,
        )
    }

    /// How far the reader is.
    pub fn state(&self) -> ReplyState
        ensures { result ≡ state_of_reply self.now.reading }
    {
        match (&self.decoding, &self.phase) {
            (Decoding::Begun(..), _) => ReplyState::More,
            (Decoding::Whole(_), _) => ReplyState::Complete,
            (Decoding::Faulty(fault), _) => ReplyState::Refused(*fault),
            (Decoding::No, Phase::Head(_) | Phase::Body(..)) => ReplyState::More,
            (Decoding::No, Phase::Complete(..)) => ReplyState::Complete,
            (Decoding::No, Phase::Refused(fault)) => ReplyState::Refused(*fault),
            (Decoding::No, Phase::Ended) => ReplyState::Ended,
        }
    }

    /// How many bytes were looked at: each once that was compared in the search for the head's first
    /// byte and its end, and once more with the whole head. The body, in chunks or not, is not counted. The count
    /// stands still at 2^63.
    pub fn looked(&self) -> u64
        ensures looked { result ≡ self.now.looked }
        ensures still { result ≤ most_looked }
    {
        self.looked
    }

    /// Gives the reply, if it waits. The state is then `Ended`.
    pub fn take(&mut self) -> Option<HttpReply>
        ensures reads { (bytes : List ℕ) (given : Option HttpReply) → HasReadReply self.old bytes given
            → MatchOption result (HasReadReply self.new bytes given) (λ q. HasReadReply self.new bytes (Some q)) }
        ensures waits { (q : HttpReply) → self.old.reading ≡ Waiting q → result ≡ Some q }
        ensures gives { IfSome result (λ q. self.old.reading ≡ Waiting q) }
        ensures after { IfSome result (λ q. self.new ≡ record self.old { reading = Done }) }
        ensures none { IfNone result (self.new ≡ self.old) }
    {
        match mem::replace(&mut self.decoding, Decoding::No) {
            Decoding::No => match mem::replace(&mut self.phase, Phase::Ended) {
                Phase::Complete(head, body_at) => {
                    let empty = Vec::new(*self.bytes.allocator());
                    let mut bytes = mem::replace(&mut self.bytes, empty);
                    drop_front(&mut bytes, body_at);
                    Some(reply_from(head, bytes))
                }
                phase => {
                    self.phase = phase;
                    None
                }
            },
            Decoding::Whole(reply) => {
                self.phase = Phase::Ended;
                Some(reply)
            }
            decoding => {
                self.decoding = decoding;
                None
            }
        }
    }
}
