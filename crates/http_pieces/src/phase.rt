ghost use Rattle.std.specs.Prelude.{◌≡◌, ◌+◌, ◌*◌, ◌<◌, ◌≤◌, ◌++◌, ℕ, length, drop, take, min, IfOk, IsOk, OnErr, false, true};
ghost use Rattle.http_pieces.specs.Cut.{IsBlock, skip_pairs};
ghost use Rattle.http_pieces.specs.Form.{Advances, Grows, IsPhaseSound, Pushes, filled, is_more, unread};
ghost use Rattle.http_pieces.specs.Looked.{Counts, IsLookedAt, most_looked};
ghost use Rattle.http_pieces.specs.Scan.{IsScanned, IsScannedTo, held};

use crate::looked::looked_on;
use crate::message::Message;
use crate::scan::{MAX_HEAD, Scan, scan_piece};
use std::alloc::AllocError;
use std::mem;

/// How far the current message is, of whose head an H is kept, and which may be refused for an F.
#[derive(Drop)]
pub(crate) enum Phase<H, F> {
    /// The end of its head has not come: its bytes end in so many bytes of CR LF CR LF.
    Head(usize),
    /// Its head was read. The place of its body, and how many bytes of it are missing.
    Body(H, usize, usize),
    /// It is whole: its head, and the place of its body.
    Complete(H, usize),
    Refused(F),
    Ended,
}

/// What a piece came to.
#[derive(Drop)]
struct Step<H, F> {
    /// How many bytes of the piece were taken.
    taken: usize,
    /// How many bytes were looked at.
    looked: usize,
    phase: Phase<H, F>,
}

/// Adds the piece to the bytes of a message that is not whole, up to its end, and answers how many
/// bytes of it were taken. With a whole message it takes none; after a refusal or the last message
/// it takes all and drops them. What it looks at is counted.
pub(crate) fn push_into<M: Message>(
    bytes: &mut Vec<u8>,
    phase: &mut Phase<M::Head, M::Fault>,
    looked: &mut u64,
    piece: &[u8],
) -> Result<usize, AllocError>
    requires sound { IsPhaseSound M.form bytes.old.items phase.old }
    requires still { looked.old ≤ most_looked }
    ensures ok { IfOk result (Pushes M.form bytes.old.items phase.old piece.now bytes.new.items phase.new) }
    ensures err { OnErr result ((bytes.new.items ≡ bytes.old.items) × (phase.new ≡ phase.old)
        × (looked.new ≡ looked.old)) }

    // Memory is needed for bytes that are kept, and else for none.
    ensures kept { is_more phase.old ≡ false → IsOk result }

    // Each byte is looked at twice at most: in the scan for its head's end, and with the whole block.
    ensures looks { IfOk result (λ n. looked.new + unread bytes.new.items phase.new
        ≤ looked.old + unread bytes.old.items phase.old + 2 * n) }
    ensures counts { is_more phase.old ≡ true
        → IfOk result (λ n. Counts looked.old looked.new bytes.old.items (bytes.old.items ++ take n piece.now)) }
    ensures still { looked.new ≤ most_looked }
    ensures idle { is_more phase.old ≡ false → looked.new ≡ looked.old }
{
    match phase {
        Phase::Head(matched) => {
            let Step {
                taken,
                looked: count,
                phase: next,
            } = advance::<M>(bytes, *matched, piece)?;
            *phase = next;
            *looked = looked_on(*looked, count);
            Ok(taken)
        }
        Phase::Body(_, _, missing) => {
            let taken = add_up_to(bytes, *missing, piece)?;
            *phase = filled(mem::replace(phase, Phase::Ended), taken);
            Ok(taken)
        }
        Phase::Complete(..) => Ok(0),
        Phase::Refused(_) => Ok(piece.len()),
        Phase::Ended => Ok(piece.len()),
    }
}

/// Adds the piece to the bytes of a head whose end has not come.
fn advance<M: Message>(
    bytes: &mut Vec<u8>,
    matched: usize,
    piece: &[u8],
) -> Result<Step<M::Head, M::Fault>, AllocError>
    requires { IsScanned bytes.old.items matched }
    ensures ok { IfOk result (λ r. Advances M.form bytes.old.items piece.now bytes.new.items r.taken r.phase) }
    ensures looks { IfOk result (λ r. r.looked + unread bytes.new.items r.phase
        ≤ length bytes.old.items + 2 * r.taken) }
    ensures counts { IfOk result (λ r. IsLookedAt (bytes.old.items ++ take r.taken piece.now)
        (length bytes.old.items + r.looked)) }
    ensures err { OnErr result (bytes.new.items ≡ bytes.old.items) }
{
    let scan = scan_piece(bytes, matched, piece);
    if scan.matched == 4 {
        return read_head::<M>(bytes, scan, piece);
    }
    if scan.size == MAX_HEAD {
        bytes.clear();
        return Ok(Step {
            taken: piece.len(),
            looked: scan.seen,
            phase: Phase::Refused(M::too_large()),
        });
    }
    let front = append(bytes, scan, piece)?;
    drop_front(bytes, front);
    Ok(Step {
        taken: piece.len(),
        looked: scan.seen,
        phase: Phase::Head(scan.matched),
    })
}

/// Adds the rest of the head, whose block the scan saw end, reads it, and goes on with its body.
fn read_head<M: Message>(
    bytes: &mut Vec<u8>,
    scan: Scan,
    piece: &[u8],
) -> Result<Step<M::Head, M::Fault>, AllocError>
    requires scanned { IsScannedTo bytes.old.items piece.now scan }
    requires whole { scan.matched ≡ 4 }
    ensures ok { IfOk result (λ r. Grows M.form bytes.old.items piece.now bytes.new.items r.taken r.phase) }
    ensures seen { IfOk result (λ r. scan.seen ≤ r.taken) }
    ensures looks { IfOk result (λ r. r.looked + unread bytes.new.items r.phase
        ≤ length bytes.old.items + 2 * r.taken) }
    ensures counts { IfOk result (λ r. IsLookedAt (bytes.old.items ++ take r.taken piece.now)
        (length bytes.old.items + r.looked)) }
    ensures err { OnErr result (bytes.new.items ≡ bytes.old.items) }
{
    let before = bytes.len();
    let front = append(bytes, scan, piece)?;
    match begin_body::<M>(bytes, front, &piece[scan.seen..]) {
        Err(refused) => {
            bytes.truncate(before);
            Err(refused)
        }
        Ok((taken, phase)) => Ok(Step {
            taken: scan.seen + taken,
            looked: scan.seen + scan.size,
            phase,
        }),
    }
}

/// Adds the head's bytes in the piece, and answers how many in front of them are not the head's.
fn append(bytes: &mut Vec<u8>, scan: Scan, piece: &[u8]) -> Result<usize, AllocError>
    requires { IsScannedTo bytes.old.items piece.now scan }
    ensures within { IfOk result (λ front. front ≤ length bytes.new.items) }
    ensures held { IfOk result (λ front. drop front bytes.new.items ≡ held bytes.old.items piece.now scan) }
    ensures stays { IfOk result (λ front. take (length bytes.old.items) bytes.new.items ≡ bytes.old.items) }
    ensures err { OnErr result (bytes.new.items ≡ bytes.old.items) }
{
    let before = bytes.len();
    bytes.extend_from_slice(&piece[scan.skipped..scan.seen])?;
    Ok(if scan.skipped == 0 { 0 } else { before })
}

/// Reads the block that the bytes are from `front` on, and adds what the piece has of its body.
fn begin_body<M: Message>(
    bytes: &mut Vec<u8>,
    front: usize,
    piece: &[u8],
) -> Result<(usize, Phase<M::Head, M::Fault>), AllocError>
    requires within { front ≤ length bytes.old.items }
    requires block { IsBlock (drop front bytes.old.items) (length (drop front bytes.old.items)) }
    requires unpaired { skip_pairs (drop front bytes.old.items) ≡ drop front bytes.old.items }
    ensures ok { IfOk result (λ r. Grows M.form (drop front bytes.old.items) piece.now bytes.new.items r.0 r.1) }
    ensures read { IfOk result (λ r. unread bytes.new.items r.1 ≡ 0) }
    ensures err { OnErr result (bytes.new.items ≡ bytes.old.items) }
{
    let block = bytes.len() - front;
    match M::judge(*bytes.allocator(), &bytes[front..])? {
        Err(fault) => {
            bytes.clear();
            Ok((piece.len(), Phase::Refused(fault)))
        }
        Ok((head, length)) => {
            let taken = add_up_to(bytes, length as usize, piece)?;
            drop_front(bytes, front);
            let phase = filled(Phase::Body(head, block, length as usize), taken);
            Ok((taken, phase))
        }
    }
}

/// Adds what the piece has of so many bytes that are missing, and answers how many that is.
fn add_up_to(bytes: &mut Vec<u8>, missing: usize, piece: &[u8]) -> Result<usize, AllocError>
    ensures taken { IfOk result (λ n. n ≡ min missing (length piece.now)) }
    ensures added { IfOk result (λ n. bytes.new.items ≡ bytes.old.items ++ take n piece.now) }
    ensures err { OnErr result (bytes.new.items ≡ bytes.old.items) }
{
    let taken = missing.min(piece.len());
    bytes.extend_from_slice(&piece[..taken])?;
    Ok(taken)
}

/// The phase once so many bytes of the body were added.
fn filled<H: Drop, F: Drop>(phase: Phase<H, F>, taken: usize) -> Phase<H, F>
    ensures { result ≡ filled phase taken }
{
    match phase {
        Phase::Body(head, body_at, missing) if taken < missing => {
            Phase::Body(head, body_at, missing - taken)
        }
        Phase::Body(head, body_at, _) => Phase::Complete(head, body_at),
        other => other,
    }
}

pub(crate) fn drop_front(bytes: &mut Vec<u8>, count: usize)
    requires { count ≤ length bytes.old.items }
    ensures { bytes.new.items ≡ drop count bytes.old.items }
{
    bytes.drain(..count);
}
