ghost use Rattle.std.specs.Prelude.{◌≡◌, ◌<◌, ◌≤◌, ◌++◌, ◌∷◌, [], ℕ, List, length, take, IfOk, IfSome, OnErr, Ok, Some, IfNone, true, MatchOption, ◌⊎◌, ◌+◌};
ghost use Rattle.http_pieces.specs.Reader.{HasRead, TakesShortest, is_over, state_of, after_request, reader_value, Partial, Waiting};
ghost use Rattle.http_pieces.specs.Looked.{Counts, most_looked};
ghost use Rattle.http_pieces.specs.Request.{HttpRequest};

use crate::head::{Head, Requests};
use crate::phase::{Phase, push_into};
use crate::refusal::Refusal;
use crate::request::Request;
use crate::state::State;
use std::alloc::{AllocError, Global};
use std::marker::Model;
use std::mem;

/// Reads the requests of one connection from pieces of its bytes.
#[derive(Drop)]
pub struct Reader {
    /// The bytes of the current request, behind the CR LF pairs that lead it.
    bytes: Vec<u8>,
    phase: Phase<Head, Refusal>,
    /// How many requests were taken.
    taken: u64,
    /// How many bytes were looked at.
    looked: u64,
}

impl Model for Reader {
    ghost use Rattle.http_pieces.specs.Reader.{ReaderValue};
    ghost use Rattle.http_pieces.specs.Layout.{value_of, IsReaderSound};

    ghost Value = { ReaderValue };

    ghost view = { λ r. value_of r.bytes.items r.phase r.taken r.looked };

    ghost invariant = { λ r. IsReaderSound r.bytes.items r.phase r.taken r.looked };
}

impl Reader {
    /// A reader of a connection's first byte on. Its buffer lies on this allocator.
    pub fn new(alloc: Global) -> Reader
        ensures reader { result ≡ reader_value 0 (Partial []) }
        ensures reads { HasRead result [] [] }
    {
        Reader {
            bytes: Vec::new(alloc),
            phase: Phase::Head(0),
            taken: 0,
            looked: 0,
        }
    }

    /// Takes bytes up to the end of the first whole request, and answers how many. With a request
    /// waiting it takes none; after a refusal or the last request it takes all and drops them, as
    /// it does with a piece that leads to a refusal. Without memory the reader stays as it was.
    pub fn push(&mut self, piece: &[u8]) -> Result<usize, AllocError>
        ensures within { IfOk result (λ n. n ≤ length piece.now) }
        ensures reads { (bytes : List ℕ) (given : List HttpRequest) → HasRead self.old bytes given
            → IfOk result (λ n. HasRead self.new (bytes ++ take n piece.now) given) }

        // In `More` it takes the shortest prefix that makes a whole request, and else all.
        ensures takes { IfOk result (TakesShortest self.old self.new piece.now) }
        ensures moves { 0 < length piece.now
            → IfOk result (λ n. (0 < n) ⊎ ((q : HttpRequest) × (self.old.reading ≡ Waiting q))) }
        ensures err { OnErr result (self.new ≡ self.old) }

        // With a request waiting it takes none, and of a stream that is over all: neither needs memory.
        ensures waits { (q : HttpRequest) → self.old.reading ≡ Waiting q → (result ≡ Ok 0) × (self.new ≡ self.old) }
        ensures over { is_over self.old.reading ≡ true → (result ≡ Ok (length piece.now)) × (self.new ≡ self.old) }

        // Each byte that is looked at is counted. `reads` says that they are at most twice those taken.
        ensures looks { (left : List ℕ) → self.old.reading ≡ Partial left
            → IfOk result (λ n. Counts self.old.looked self.new.looked left (left ++ take n piece.now)) }
    {
        push_into::<Requests>(&mut self.bytes, &mut self.phase, &mut self.looked, piece)
    }

    /// How far the reader is.
    pub fn state(&self) -> State
        ensures { result ≡ state_of self.now.reading }
    {
        match self.phase {
            Phase::Head(_) | Phase::Body(..) => State::More,
            Phase::Complete(..) => State::Complete,
            Phase::Refused(refusal) => State::Refused(refusal),
            Phase::Ended => State::Ended,
        }
    }

    /// How many bytes were looked at: each once that was compared in the search for a head's first byte
    /// and its end, and once more with its whole head. The count stands still at 2^63.
    pub fn looked(&self) -> u64
        ensures looked { result ≡ self.now.looked }
        ensures still { result ≤ most_looked }
    {
        self.looked
    }

    /// Gives the request that waits, if one does. The state is then `Ended` if the request closes,
    /// and else `More`.
    pub fn take(&mut self) -> Option<Request>
        ensures reads { (bytes : List ℕ) (given : List HttpRequest) → HasRead self.old bytes given
            → MatchOption result (HasRead self.new bytes given) (λ q. HasRead self.new bytes (given ++ q ∷ [])) }
        ensures waits { (q : HttpRequest) → self.old.reading ≡ Waiting q → result ≡ Some q }
        ensures gives { IfSome result (λ q. self.old.reading ≡ Waiting q) }
        ensures after { IfSome result (λ q. self.new
            ≡ record self.old { taken = self.old.taken + 1; reading = after_request q }) }
        ensures none { IfNone result (self.new ≡ self.old) }
    {
        match mem::replace(&mut self.phase, Phase::Head(0)) {
            Phase::Complete(head, body_at) => {
                let empty = Vec::new(*self.bytes.allocator());
                let request = Request {
                    bytes: mem::replace(&mut self.bytes, empty),
                    head,
                    body_at,
                    number: self.taken,
                };
                self.taken += 1;
                if request.closes() {
                    self.phase = Phase::Ended;
                }
                Some(request)
            }
            phase => {
                self.phase = phase;
                None
            }
        }
    }
}
