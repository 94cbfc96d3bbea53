ghost use Rattle.std.specs.Prelude.{◌≡◌, ◌++◌, ◌≤◌, [], ℕ, List, Some, None, IsTrue, IfOk, ◌↔◌, drop, length};
ghost use Rattle.http_pieces.specs.declared.framing.Framing.{Framing};
ghost use Rattle.branch_exchange.specs.Exchange.{ComesTo, ExchangeValue, IsReading, TakesIn, exchange_value, loss_in};

use crate::exchange_end::{ExchangeEnd, Loss};
use http_pieces::laws::reply_cut_law;
use http_pieces::{Bytes, Framing, HttpReply, ReplyReader, ReplyState};
use std::alloc::{AllocError, Global};
use std::marker::Model;
use wires::Outbox;

/// So many reads are made for one reply at most.
pub const MOST_READS: u32 = 131_072;

/// A request, as far as it was written, and its reply, as far as it was read (RFC 9112). It does no input or output.
/// Contracts see what is left of the request, the reader of the reply, and whether nothing was read behind that.
#[derive(Drop)]
pub struct Exchange {
    request: Outbox,
    replies: ReplyReader,
    /// Whether the reply is whole, and nothing was read behind it.
    is_alone: bool,
    /// How many pieces were read that did not end it.
    reads: u32,
}

impl Model for Exchange {
    ghost Value = { ExchangeValue };

    ghost view = { λ e. exchange_value e.request e.replies e.is_alone };
}

impl Exchange {
    /// The whole request is to be written, and nothing was read. The reply, whose body may be framed so, is kept on
    /// this allocator.
    pub fn new(alloc: Global, framing: Framing, request: Bytes) -> Exchange
        ensures left { result.left ≡ request }
        ensures unread { IsReading framing result.replies [] }
    {
        reply_cut_law();
        Exchange {
            request: Outbox::of(request),
            replies: ReplyReader::with_framing(alloc, framing),
            is_alone: false,
            reads: 0,
        }
    }

    /// Whether the request was written whole.
    pub fn is_sent(&self) -> bool
        ensures { IsTrue result ↔ (self.now.left ≡ []) }
    {
        self.request.is_empty()
    }

    /// What is left to be written.
    pub fn request(&self) -> &Outbox
        ensures { result.now ≡ self.now.left }
    {
        &self.request
    }

    /// Whether the reply is whole, and nothing was read behind it.
    pub fn is_alone(&self) -> bool
        ensures { result ≡ self.now.alone }
    {
        self.is_alone
    }

    /// So many bytes more were written.
    pub fn sent(&mut self, count: usize)
        requires { count ≤ length self.old.left }
        ensures { self.new ≡ exchange_value (drop count self.old.left) self.old.replies self.old.alone }
    {
        self.request.sent(count);
    }

    /// Takes a piece that was read. Answers once the reply is whole, or none will come: what follows the reply is
    /// dropped. A reply that comes before its request was written whole is lost, and so is one that 131,072 pieces
    /// leave incomplete.
    pub fn received(&mut self, piece: &[u8]) -> Option<ExchangeEnd>
        ensures left { self.new.left ≡ self.old.left }
        // Whatever was read before.
        ensures comes { (framing : Framing) (bytes : List ℕ) → IsReading framing self.old.replies bytes
            → ComesTo framing self.new (bytes ++ piece.now) result }
    {
        match take_in(&mut self.replies, piece) {
            Ok(Some(taken)) if self.is_sent() => {
                self.is_alone = taken.is_alone;
                Some(ExchangeEnd::Reply(taken.reply))
            }
            Ok(Some(_)) => Some(ExchangeEnd::Lost(Loss::Early)),
            Ok(None) => self.go_on(),
            Err(_) => Some(ExchangeEnd::NoMemory),
        }
    }

    /// Why no reply comes if its stream ends now: before any piece, or within the reply.
    pub fn loss_at_end(&self) -> Loss {
        if self.reads == 0 {
            Loss::NoByte
        } else {
            Loss::End
        }
    }

    #[tactic(auto, using(crate::proofs::ExchangeLemmas::lost_by))]
    /// A piece more was read. None where the reply may become whole.
    fn go_on(&mut self) -> Option<ExchangeEnd>
        ensures same { self.new ≡ self.old }
        ensures comes { (framing : Framing) (bytes : List ℕ) → IsReading framing self.old.replies bytes
            → ComesTo framing self.new bytes result }
    {
        self.reads = self.reads.saturating_add(1);
        let state = self.replies.state();
        if state == ReplyState::More && self.reads < MOST_READS {
            return None;
        }
        Some(ExchangeEnd::Lost(loss_in(state)))
    }
}

/// Why no reply comes of a reader in this state, though it may be read on.
fn loss_in(state: ReplyState) -> Loss
    ensures { result ≡ loss_in state }
{
    match state {
        ReplyState::More => Loss::Reads,
        ReplyState::Refused(fault) => Loss::Refused(fault),
        ReplyState::Complete | ReplyState::Ended => Loss::End,
    }
}

/// A whole reply.
#[derive(Drop)]
struct Taken {
    reply: HttpReply,
    /// Whether the piece that it was read from ends with it.
    is_alone: bool,
}

/// Takes a piece of the input, and gives the reply once it is whole. What follows it is dropped.
fn take_in(replies: &mut ReplyReader, piece: &[u8]) -> Result<Option<Taken>, AllocError>
    ensures { (framing : Framing) (bytes : List ℕ) → IsReading framing replies.old bytes
        → IfOk result (λ taken. TakesIn framing replies.new (bytes ++ piece.now) taken) }
{
    reply_cut_law();
    let count = replies.push(piece)?;
    let is_alone = count == piece.len();
    match replies.take() {
        Some(reply) => Ok(Some(Taken { reply, is_alone })),
        None => Ok(None),
    }
}
