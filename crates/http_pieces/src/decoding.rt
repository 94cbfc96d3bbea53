ghost use Rattle.std.specs.Prelude.{◌≡◌, ◌+◌, ◌≤◌, ◌<◌, [], length, vec_len, vec_capacity};
ghost use Rattle.http_pieces.specs.ReplyHead.{chunk_fault};
ghost use Rattle.http_pieces.specs.ReplyLayout.{ChunksGrow, IsBegun, IsDecodingSound, chunked_of, reply_from, reply_reading_of};
ghost use Rattle.http_pieces.specs.declared.phase.Phase.TheVariants as phases;

use crate::byte_string::Bytes;
use crate::chunk_parts::{ChunkFault, Decoded};
use crate::chunks::Chunks;
use crate::reply::HttpReply;
use crate::reply_fault::ReplyFault;
use crate::reply_head::ReplyHead;
use http::StatusCode;

/// How far the body of a reply is, where it is in chunks.
#[derive(Drop)]
pub(crate) enum Decoding {
    /// No chunks have come.
    No,
    /// The body is not whole.
    Begun(ReplyHead, Chunks),
    Whole(HttpReply),
    Faulty(ReplyFault),
}

/// Decodes bytes of the reply with that head, for which there is room, and answers how many were taken.
pub(crate) fn decode(head: ReplyHead, chunks: Chunks, bytes: &[u8]) -> (usize, Decoding)
    requires begun { IsBegun chunks }
    requires room { vec_len chunks.body + length bytes.now ≤ vec_capacity chunks.body }
    ensures within { result.0 ≤ length bytes.now }
    ensures moves { 0 < length bytes.now → 0 < result.0 }
    ensures grows { ChunksGrow (chunked_of head chunks) bytes.now result.0 (reply_reading_of [] phases.Ended result.1) }
    ensures sound { IsDecodingSound phases.Ended result.1 }
{
    let mut chunks = chunks;
    let (taken, decoded) = chunks.push(bytes);
    match decoded {
        Decoded::More => (taken, Decoding::Begun(head, chunks)),
        Decoded::Whole => (taken, Decoding::Whole(reply_from(head, chunks.body))),
        Decoded::Fault(fault) => (
            bytes.len(),
            Decoding::Faulty(chunk_fault(head.status, fault)),
        ),
    }
}

/// The reply with that head and this body.
pub(crate) fn reply_from(head: ReplyHead, body: Vec<u8>) -> HttpReply
    ensures { result ≡ reply_from head body.items }
{
    HttpReply {
        status: head.status,
        content_type: head.content_type,
        closes: head.closes,
        body: Bytes::from_vec(body),
    }
}

fn chunk_fault(status: StatusCode, fault: ChunkFault) -> ReplyFault
    ensures { result ≡ chunk_fault status fault }
{
    match fault {
        ChunkFault::Malformed => ReplyFault::BadChunk(status),
        ChunkFault::TooLarge => ReplyFault::BodyTooLarge(status),
    }
}
