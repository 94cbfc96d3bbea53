ghost use Rattle.std.specs.Prelude.{◌≡◌, ◌≤◌, length, map};
ghost use Rattle.connections.specs.Pumps.{Counts};
ghost use Rattle.connections.specs.Writes.{WritesOut, calls_of};

use crate::pumping::{Fed, Inlet, pump};
use crate::writing::{ReplyQueue, write_replies};
use backend_pool::{LedgerFull, NextReply, Shared};
use gateway_core::{ConnId, Reply, ReplyHook};
use std::alloc::Global;
use std::io::{Read, Write};
use std::sync::Wait;
use std::sync::ledger::{Ledger, Share};
use std::time;

/// Where the stream of a connection under the lock goes: each call is one hold, and one event.
#[derive(Drop)]
struct LockInlet<'a, H, L: Ledger, J: Ledger, K: Ledger> {
    shared: &'a Shared<H, L, J, K>,
    conn: ConnId,
    bytes: Share<L>,
    ghost one_part: { bytes.parts ≡ 1 },
}

impl<H: ReplyHook + Drop, L: Ledger, J: Ledger, K: Ledger> Inlet for LockInlet<'_, H, L, J, K> {
    ghost took = { λ inlet. inlet.bytes.amount };

    fn piece<R: time::Clock + Wait>(&mut self, rt: &R, bytes: &[u8]) -> Fed {
        let mut state = self.shared.state.lock(rt);
        let fed = match state.book.piece(self.conn, bytes, &mut self.bytes) {
            Ok(Ok(())) => Fed::Go,
            Ok(Err(_)) => Fed::Stop,
            Err(LedgerFull) => Fed::Full,
        };
        self.shared.wake();
        fed
    }

    fn hang_up<R: time::Clock + Wait>(&mut self, rt: &R) {
        let mut state = self.shared.state.lock(rt);
        // the connection may be closed or hung up: then nothing changes
        let _ = state.book.hang_up(self.conn);
        self.shared.wake();
    }
}

/// Reads the stream of a connection into the gateway, by `pump`: each piece is one hold of the lock, and so is the
/// hang-up behind the last. Gives back the share, in which the bytes are counted that were taken, and how it ended:
/// `Go` where the stream ended by itself, `Stop` where the connection takes no more, `Full` where the ledger does not.
pub fn read_side<S: Read, H: ReplyHook + Drop, L: Ledger, J: Ledger, K: Ledger>(
    rt: &(impl time::Clock + Wait),
    reader: &mut S,
    shared: &Shared<H, L, J, K>,
    conn: ConnId,
    bytes: Share<L>,
) -> (Share<L>, Fed)
    requires { bytes.parts ≡ 1 }
    ensures parts { result.0.parts ≡ 1 }
    ensures grown { bytes.amount ≤ result.0.amount }
    ensures read { Counts (S.remaining reader.old) (S.remaining reader.new) bytes.amount result.0.amount result.1 }
{
    let mut inlet = LockInlet {
        shared,
        conn,
        bytes,
    };
    let fed = pump(rt, reader, &mut inlet);
    (inlet.bytes, fed)
}

/// The replies of a connection under the lock: each call is one hold. Taking one is no event, closing is.
#[derive(Drop)]
struct LockReplies<'a, H, L: Ledger, J: Ledger, K: Ledger> {
    shared: &'a Shared<H, L, J, K>,
    conn: ConnId,
}

impl<H: ReplyHook + Drop, L: Ledger, J: Ledger, K: Ledger> ReplyQueue
    for LockReplies<'_, H, L, J, K> {
    fn next<R: Wait>(&mut self, rt: &R) -> Option<Reply> {
        let mut state = self.shared.state.lock(rt);
        for _ in rt.forever() {
            match state.book.take_reply(self.conn) {
                NextReply::Ready(reply) => return Some(reply),
                NextReply::Over => return None,
                NextReply::Pending => state = self.shared.replies.wait(rt, state),
            }
        }
        unreachable!()
    }

    fn close<R: Wait>(&mut self, rt: &R) {
        let mut state = self.shared.state.lock(rt);
        state.book.closing(self.conn);
        self.shared.wake();
    }
}

/// Writes the replies of a connection, by `write_replies`, and then closes it: each taking of a reply is one hold of
/// the lock, and so is the closing. Gives back the replies that were written, the last perhaps in part.
pub fn write_side<R: Wait, W: Write, H: ReplyHook + Drop, L: Ledger, J: Ledger, K: Ledger>(
    rt: &R,
    alloc: Global,
    writer: &mut W,
    shared: &Shared<H, L, J, K>,
    conn: ConnId,
) -> Vec<Reply>
    ensures own { map (λ r. r.id) result.items ≡ calls_of conn 0 (length result.items) }
    ensures written { WritesOut (W.contents writer.old) (W.contents writer.new) result.items }
{
    write_replies(rt, alloc, writer, conn, &mut LockReplies { shared, conn })
}

/// The time outside, as it is handed to the gateway.
pub trait Clock {
    /// The moment, in milliseconds from a start of the clock's own.
    fn now<R: time::Clock + Wait>(&mut self, rt: &R) -> u64;

    /// Waits for a while, before the next moment is asked for.
    fn pause<R: time::Clock + Wait>(&mut self, rt: &R);
}

/// Hands the moments of a clock to the gateway, one at each turn, each in one hold of the lock, until that is shut.
/// Between two turns the clock pauses.
pub fn clock_side<H: ReplyHook + Drop, L: Ledger, J: Ledger, K: Ledger>(
    rt: &(impl time::Clock + Wait),
    clock: &mut impl Clock,
    shared: &Shared<H, L, J, K>,
) {
    for _ in rt.forever() {
        let moment = clock.now(rt);
        let mut state = shared.state.lock(rt);
        if state.shut {
            return;
        }
        state.book.moment(moment);
        shared.wake();
        drop(state);
        clock.pause(rt);
    }
    unreachable!()
}
