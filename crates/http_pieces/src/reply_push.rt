ghost use Rattle.std.specs.Prelude.{◌≡◌, ◌+◌, ◌*◌, ◌<◌, ◌≤◌, ◌++◌, ℕ, List, [], length, take, true, false, Some, None, IfOk, IfSome, IfNone, IsOk, OnErr, vec_len, vec_capacity};
ghost use Rattle.http_pieces.specs.declared.decoding.Decoding.TheVariants as decodings;
ghost use Rattle.http_pieces.specs.declared.framing.Framing.TheVariants as framings;
ghost use Rattle.http_pieces.specs.declared.phase.Phase.TheVariants as phases;
ghost use Rattle.http_pieces.specs.Form.{IsPhaseSound, is_more};
ghost use Rattle.http_pieces.specs.Looked.{Counts, HasLooked, most_looked};
ghost use Rattle.http_pieces.specs.ReplyLayout.{IsBegun, IsDecodingSound, IsReplyReaderSound, IsUnchunked, ReplyPushes, chunked_of, is_growing, phase_reading, reply_form, reply_reading_of};
ghost use Rattle.http_pieces.specs.ReplyReader.{left_of_reply, Partial, Decoding as Decoded};

use crate::chunks::Chunks;
use crate::decoding::{Decoding, decode};
use crate::framing::Framing;
use crate::phase::{Phase, push_into};
use crate::reply_fault::ReplyFault;
use crate::reply_head::{AnyReplies, FixedReplies, ReplyHead};
use std::alloc::AllocError;
use std::mem;

/// Adds the piece to a reply, up to its end, and answers how many bytes of it were taken. With the whole reply it takes
/// none; after a fault, or once the reply was taken, all.
pub(crate) fn push_reply(
    framing: Framing,
    bytes: &mut Vec<u8>,
    phase: &mut Phase<ReplyHead, ReplyFault>,
    decoding: &mut Decoding,
    looked: &mut u64,
    piece: &[u8],
) -> Result<usize, AllocError>
    requires { IsReplyReaderSound framing bytes.old.items phase.old decoding.old looked.old }
    ensures pushes { IfOk result (ReplyPushes framing
        (reply_reading_of bytes.old.items phase.old decoding.old) piece.now (reply_reading_of bytes.new.items phase.new decoding.new)) }
    ensures sound { IsReplyReaderSound framing bytes.new.items phase.new decoding.new looked.new }
    ensures err { OnErr result ((reply_reading_of bytes.new.items phase.new decoding.new
        ≡ reply_reading_of bytes.old.items phase.old decoding.old) × (looked.new ≡ looked.old)) }
    ensures kept { is_growing (reply_reading_of bytes.old.items phase.old decoding.old) ≡ false
        → IsOk result × (looked.new ≡ looked.old) }
    ensures looks { (text : List ℕ)
        → HasLooked looked.old (left_of_reply (reply_reading_of bytes.old.items phase.old decoding.old)) text
        → IfOk result (λ n. HasLooked looked.new
        (left_of_reply (reply_reading_of bytes.new.items phase.new decoding.new)) (text ++ take n piece.now)) }
    ensures counts { (left : List ℕ) → reply_reading_of bytes.old.items phase.old decoding.old ≡ Partial left
        → IfOk result (λ n. Counts looked.old looked.new left (left ++ take n piece.now)) }
{
    match mem::replace(decoding, Decoding::No) {
        Decoding::No => match framing {
            Framing::Fixed => push_fixed(bytes, phase, looked, piece),
            Framing::Any => push_any(bytes, phase, decoding, looked, piece),
        },
        Decoding::Begun(head, chunks) => push_chunks(decoding, head, chunks, piece),
        Decoding::Whole(reply) => {
            *decoding = Decoding::Whole(reply);
            Ok(0)
        }
        Decoding::Faulty(fault) => {
            *decoding = Decoding::Faulty(fault);
            Ok(piece.len())
        }
    }
}

/// Adds the piece to a reply that can have no chunks.
fn push_fixed(
    bytes: &mut Vec<u8>,
    phase: &mut Phase<ReplyHead, ReplyFault>,
    looked: &mut u64,
    piece: &[u8],
) -> Result<usize, AllocError>
    requires sound { IsPhaseSound (reply_form framings.Fixed) bytes.old.items phase.old }
    requires unchunked { IsUnchunked phase.old }
    requires still { looked.old ≤ most_looked }
    ensures pushes { IfOk result (ReplyPushes framings.Fixed (phase_reading bytes.old.items phase.old) piece.now
        (phase_reading bytes.new.items phase.new)) }
    ensures sound { IsReplyReaderSound framings.Fixed bytes.new.items phase.new decodings.No looked.new }
    ensures err { OnErr result ((bytes.new.items ≡ bytes.old.items) × (phase.new ≡ phase.old)
        × (looked.new ≡ looked.old)) }
    ensures kept { is_more phase.old ≡ false → IsOk result × (looked.new ≡ looked.old) }
    ensures looks { (text : List ℕ)
        → HasLooked looked.old (left_of_reply (phase_reading bytes.old.items phase.old)) text
        → IfOk result (λ n. HasLooked looked.new
        (left_of_reply (phase_reading bytes.new.items phase.new)) (text ++ take n piece.now)) }
    ensures counts { is_more phase.old ≡ true
        → IfOk result (λ n. Counts looked.old looked.new bytes.old.items (bytes.old.items ++ take n piece.now)) }
{
    push_into::<FixedReplies>(bytes, phase, looked, piece)
}

/// Adds the piece to a reply whose chunks have not come, if it has any.
fn push_any(
    bytes: &mut Vec<u8>,
    phase: &mut Phase<ReplyHead, ReplyFault>,
    decoding: &mut Decoding,
    looked: &mut u64,
    piece: &[u8],
) -> Result<usize, AllocError>
    requires sound { IsPhaseSound (reply_form framings.Any) bytes.old.items phase.old }
    requires unchunked { IsUnchunked phase.old }
    requires none { decoding.old ≡ decodings.No }
    requires still { looked.old ≤ most_looked }
    ensures pushes { IfOk result (ReplyPushes framings.Any (phase_reading bytes.old.items phase.old) piece.now
        (reply_reading_of bytes.new.items phase.new decoding.new)) }
    ensures sound { IsReplyReaderSound framings.Any bytes.new.items phase.new decoding.new looked.new }
    ensures err { OnErr result ((bytes.new.items ≡ bytes.old.items) × (phase.new ≡ phase.old)
        × (decoding.new ≡ decodings.No) × (looked.new ≡ looked.old)) }
    ensures kept { is_more phase.old ≡ false → IsOk result × (looked.new ≡ looked.old) }
    ensures looks { (text : List ℕ)
        → HasLooked looked.old (left_of_reply (phase_reading bytes.old.items phase.old)) text
        → IfOk result (λ n. HasLooked looked.new
        (left_of_reply (reply_reading_of bytes.new.items phase.new decoding.new)) (text ++ take n piece.now)) }
    ensures counts { is_more phase.old ≡ true
        → IfOk result (λ n. Counts looked.old looked.new bytes.old.items (bytes.old.items ++ take n piece.now)) }
{
    let mut body = Vec::new(*bytes.allocator());
    if goes_on(phase) {
        body.reserve(piece.len())?;
    }
    let taken = push_into::<AnyReplies>(bytes, phase, looked, piece)?;
    match begun(phase) {
        None => Ok(taken),
        Some(head) => {
            let (count, next) = decode(head, Chunks::new(body), &piece[taken..]);
            *decoding = next;
            Ok(taken + count)
        }
    }
}

/// Whether more bytes are to come.
fn goes_on(phase: &Phase<ReplyHead, ReplyFault>) -> bool
    ensures { result ≡ is_more phase.now }
{
    matches!(phase, Phase::Head(_) | Phase::Body(..))
}

/// The head whose chunks are to come, if it is there. The phase is then `Ended`.
fn begun(phase: &mut Phase<ReplyHead, ReplyFault>) -> Option<ReplyHead>
    ensures none { IfNone result ((phase.new ≡ phase.old) × IsUnchunked phase.old) }
    ensures some { IfSome result (λ head. (phase.new ≡ phases.Ended) × (head.in_chunks ≡ true)
        × ((body_at : ℕ) × (phase.old ≡ phases.Complete head body_at))) }
{
    match mem::replace(phase, Phase::Ended) {
        Phase::Complete(head, _) if head.in_chunks => Some(head),
        other => {
            *phase = other;
            None
        }
    }
}

/// Adds the piece to a reply whose chunks have come so far.
fn push_chunks(
    decoding: &mut Decoding,
    head: ReplyHead,
    chunks: Chunks,
    piece: &[u8],
) -> Result<usize, AllocError>
    requires { IsBegun chunks }
    ensures pushes { IfOk result (ReplyPushes framings.Any (Decoded (chunked_of head chunks)) piece.now
        (reply_reading_of [] phases.Ended decoding.new)) }
    ensures sound { IsDecodingSound phases.Ended decoding.new }
    ensures err { OnErr result (reply_reading_of [] phases.Ended decoding.new ≡ Decoded (chunked_of head chunks)) }
{
    let mut chunks = chunks;
    if let Err(refused) = chunks.body.reserve(piece.len()) {
        *decoding = Decoding::Begun(head, chunks);
        return Err(refused);
    }
    let (taken, next) = decode(head, chunks, piece);
    *decoding = next;
    Ok(taken)
}
