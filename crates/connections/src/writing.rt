ghost use Rattle.std.specs.Prelude.{◌≡◌, ◌≤◌, [], ◌∷◌, ℕ, length, take, List, map, Option, None};
ghost use Rattle.std.specs.Io.KnownBytes.{Appends};
ghost use Rattle.connections.specs.Pumps.{Tells};
ghost use Rattle.connections.specs.Writes.{End, NotYet, Writes, WritesToItsEnd, goes_on, calls_of, told_by};
ghost use Rattle.connections.specs.declared.writing.Handed.{Handed};

use gateway_core::{CallId, ConnId, Reply};
use std::alloc::Global;
use std::io::Write;
use std::sync::Wait;

/// What a reply queue was asked for: it gave the reply to a request, or was over; or it was told that its side closes.
#[derive(Clone, Copy, PartialEq, Eq, Debug)]
pub enum Handed {
    Reply(CallId),
    Over,
    Closing,
}

/// Where the replies of a connection come from. It may tell what it gave.
pub trait ReplyQueue {
    // for proofs: what it was asked for so far, in order; None where it keeps no list
    ghost told: { Self → Option (List Handed) } = { λ _. None };

    /// Waits for the connection's next reply and gives it. None where no more can come.
    fn next<R: Wait>(&mut self, rt: &R) -> Option<Reply>
        ensures { Tells (told self.old) (told self.new) (told_by result) };

    /// Is told that the connection's writing has ended.
    fn close<R: Wait>(&mut self, rt: &R)
        ensures { Tells (told self.old) (told self.new) (Handed.Closing ∷ []) };
}

/// Writes the replies that the queue gives, to requests 0, 1, .. of the connection, and gives back those that were
/// written, the last perhaps in part. It ends where the queue is over, where it gives a reply to another request, and
/// at a write that fails or takes nothing; and then it closes the queue, once. Room to give a reply back is made
/// before it is written: where memory is refused, it ends as at a failed write.
pub fn write_replies<R: Wait, W: Write, Q: ReplyQueue>(
    rt: &R,
    alloc: Global,
    writer: &mut W,
    conn: ConnId,
    queue: &mut Q,
) -> Vec<Reply>
    ensures own { map (λ r. r.id) result.items ≡ calls_of conn 0 (length result.items) }
    ensures written { WritesToItsEnd conn (W.contents writer.old) (W.contents writer.new)
        (Q.told queue.old) (Q.told queue.new) result.items }
{
    let mut written = Vec::new(alloc);
    for _ in rt.forever() {
        if !write_next(rt, writer, conn, queue, &mut written) {
            queue.close(rt);
            return written;
        }
    }
    unreachable!()
}

/// Writes the reply to the next request, where the queue gives that, and keeps it beside those before it. Answers
/// whether it was written whole.
fn write_next<R: Wait, W: Write, Q: ReplyQueue>(
    rt: &R,
    writer: &mut W,
    conn: ConnId,
    queue: &mut Q,
    written: &mut Vec<Reply>,
) -> bool
    // whatever was written and told before
    ensures { (old : Option (List ℕ)) (told : Option (List Handed))
        → Writes conn 0 old (W.contents writer.old) told (Q.told queue.old) written.old.items NotYet []
        → (end : End) × (goes_on end ≡ result)
        × Writes conn 0 old (W.contents writer.new) told (Q.told queue.new) written.new.items end [] }
{
    let Some(reply) = queue.next(rt) else {
        return false;
    };
    let request = written.len() as u64;
    if reply.id() != (CallId { conn, request }) || written.reserve(1).is_err() {
        return false;
    }
    let length = reply.bytes().len();
    let sent = send(reply.bytes(), writer);
    written.push_reserved(reply);
    sent == length
}

/// Writes the bytes, and answers how many were written: all, or those before the first write that failed or took none.
fn send<W: Write>(bytes: &[u8], writer: &mut W) -> usize
    ensures within { result ≤ length bytes.now }
    ensures written { Appends (W.contents writer.old) (W.contents writer.new) (take result bytes.now) }
{
    let mut sent = 0;
    while sent < bytes.len() {
        match writer.write(&bytes[sent..]) {
            Ok(0) | Err(_) => return sent,
            Ok(taken) => sent += taken,
        }
    }
    sent
}
