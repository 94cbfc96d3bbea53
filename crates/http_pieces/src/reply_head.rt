ghost use Rattle.std.specs.Prelude.{◌≡◌, ℕ, List, map, length, if◌then◌else◌, All, IfOk, Ok};
ghost use Rattle.httparse.specs.Spans.{IsHeaderWithin, header_bytes};
ghost use Rattle.http_pieces.specs.Fields.{IsFieldOf};
ghost use Rattle.http_pieces.specs.Form.{JudgesTo};
ghost use Rattle.http_pieces.specs.Head.{most_fields};
ghost use Rattle.http_pieces.specs.ReplyHead.{closes_after, has_no_content, length_by_fields, length_by_number, is_chunked, one_value, reply_length, takes_chunks};
ghost use Rattle.http_pieces.specs.ReplyLayout.{ReadsReplyHead, reply_form};

use crate::byte_string::Bytes;
use crate::field::Field;
use crate::framing::Framing;
use crate::head::{MAX_BODY, MAX_FIELDS, stated_length};
use crate::lookup::{find_field, lists_option};
use crate::message::Message;
use crate::reply_fault::ReplyFault;
use http::StatusCode;
use httparse::Status;
use httparse::spans::{EMPTY_HEADER_SPAN, HeaderSpan, parse_response};
use std::alloc::{AllocError, Global};

/// What is kept of a reply's head.
#[derive(Drop)]
pub(crate) struct ReplyHead {
    pub(crate) status: StatusCode,
    /// The value of the one `Content-Type` field.
    pub(crate) content_type: Option<Bytes>,
    /// Whether the connection ends with the reply.
    pub(crate) closes: bool,
    /// Whether the body is in chunks. It is then none of the message, which ends with the head.
    pub(crate) in_chunks: bool,
}

/// Replies whose bodies have a fixed length, as a kind of message.
pub(crate) struct FixedReplies;

impl Message for FixedReplies {
    ghost use Rattle.http_pieces.specs.ReplyLayout.{Headed, reply_form, headed_single};
    ghost use Rattle.http_pieces.specs.declared.framing.Framing.TheVariants as framing;

    type Head = ReplyHead;

    type Fault = ReplyFault;

    ghost Whole = { Headed };

    ghost form = { reply_form framing.Fixed };

    ghost single = { λ k. headed_single framing.Fixed };

    fn too_large() -> ReplyFault {
        ReplyFault::HeadTooLarge
    }

    fn judge(
        alloc: Global,
        block: &[u8],
    ) -> Result<Result<(ReplyHead, u64), ReplyFault>, AllocError> {
        judge_reply(Framing::Fixed, alloc, block)
    }
}

/// Replies whose bodies have a fixed length or are in chunks, as a kind of message.
pub(crate) struct AnyReplies;

impl Message for AnyReplies {
    ghost use Rattle.http_pieces.specs.ReplyLayout.{Headed, reply_form, headed_single};
    ghost use Rattle.http_pieces.specs.declared.framing.Framing.TheVariants as framing;

    type Head = ReplyHead;

    type Fault = ReplyFault;

    ghost Whole = { Headed };

    ghost form = { reply_form framing.Any };

    ghost single = { λ k. headed_single framing.Any };

    fn too_large() -> ReplyFault {
        ReplyFault::HeadTooLarge
    }

    fn judge(
        alloc: Global,
        block: &[u8],
    ) -> Result<Result<(ReplyHead, u64), ReplyFault>, AllocError> {
        judge_reply(Framing::Any, alloc, block)
    }
}

/// What the block asks for, where bodies may be framed so.
fn judge_reply(
    framing: Framing,
    alloc: Global,
    block: &[u8],
) -> Result<Result<(ReplyHead, u64), ReplyFault>, AllocError>
    ensures { IfOk result (JudgesTo (reply_form framing) block.now) }
{
    let mut headers = [EMPTY_HEADER_SPAN; MAX_FIELDS];
    let Some((status, minor, fields)) = read_reply_head(block, &mut headers) else {
        return Ok(Err(ReplyFault::NotAHead));
    };
    let headers = &headers[..fields];
    let in_chunks = takes_chunks(framing, status, minor, block, headers);
    let length = match head_length(in_chunks, status, block, headers) {
        Err(fault) => return Ok(Err(fault)),
        Ok(length) => length,
    };
    let content_type = one_value(alloc, find_field(block, headers, b"content-type"))?;
    let head = ReplyHead {
        status,
        content_type,
        closes: closes_after(minor, block, headers),
        in_chunks,
    };
    Ok(Ok((head, length)))
}

/// Whether the body that follows the head is in chunks that are taken.
fn takes_chunks(
    framing: Framing,
    status: StatusCode,
    minor: u8,
    bytes: &[u8],
    headers: &[HeaderSpan],
) -> bool
    requires { All (IsHeaderWithin (length bytes.now)) headers.now }
    ensures { result ≡ takes_chunks framing status minor (map (header_bytes bytes.now) headers.now) }
{
    framing == Framing::Any
        && minor == 1
        && !has_no_content(status)
        && is_chunked(find_field(bytes, headers, b"transfer-encoding"))
        && matches!(find_field(bytes, headers, b"content-length"), Field::None)
}

/// Whether the one transfer coding is `chunked`, whatever its case (RFC 9112, section 7).
#[tactic(auto, using(crate::proofs::FieldLemmas::same_is))]
fn is_chunked(field: Field<'_>) -> bool
    ensures { (values : List (List ℕ)) → IsFieldOf values field.entry → result ≡ is_chunked values }
{
    match field {
        Field::One(value) => value.eq_ignore_ascii_case(b"chunked"),
        _ => false,
    }
}

/// How many bytes of a body belong to the message: none of one in chunks.
fn head_length(
    in_chunks: bool,
    status: StatusCode,
    bytes: &[u8],
    headers: &[HeaderSpan],
) -> Result<u64, ReplyFault>
    requires { All (IsHeaderWithin (length bytes.now)) headers.now }
    ensures { result ≡ (if in_chunks then Ok 0 else reply_length status (map (header_bytes bytes.now) headers.now)) }
{
    if in_chunks {
        Ok(0)
    } else {
        reply_length(status, bytes, headers)
    }
}

/// Reads the block as one head of a final reply, writes where its fields are to the front of
/// `headers`, and answers its status, its minor version of HTTP/1 and how many fields there are; None
/// where it is no such head.
fn read_reply_head(block: &[u8], headers: &mut [HeaderSpan]) -> Option<(StatusCode, u8, usize)>
    requires { length headers.old ≡ most_fields }
    ensures { ReadsReplyHead block.now headers.new result }
{
    let Ok(Status::Complete(spans)) = parse_response(block, headers) else {
        return None;
    };
    if spans.len != block.len() || spans.code < 200 {
        return None;
    }
    match StatusCode::from_u16(spans.code) {
        Ok(status) => Some((status, spans.version, spans.headers)),
        Err(_) => None,
    }
}

/// The length of the body that follows the head, or the head's fault.
fn reply_length(status: StatusCode, bytes: &[u8], headers: &[HeaderSpan]) -> Result<u64, ReplyFault>
    requires { All (IsHeaderWithin (length bytes.now)) headers.now }
    ensures { result ≡ reply_length status (map (header_bytes bytes.now) headers.now) }
{
    if !matches!(
        find_field(bytes, headers, b"transfer-encoding"),
        Field::None
    ) {
        return Err(ReplyFault::NotFixedLength(status));
    }
    length_by_field(status, find_field(bytes, headers, b"content-length"))
}

/// The length of the body, by what the head says of `Content-Length`.
fn length_by_field(status: StatusCode, field: Field<'_>) -> Result<u64, ReplyFault>
    ensures { (values : List (List ℕ)) → IsFieldOf values field.entry → result ≡ length_by_fields status values }
{
    match field {
        Field::None if has_no_content(status) => Ok(0),
        Field::None => Err(ReplyFault::NotFixedLength(status)),
        _ => length_by_number(status, stated_length(field)),
    }
}

fn length_by_number(status: StatusCode, number: Option<u64>) -> Result<u64, ReplyFault>
    ensures { result ≡ length_by_number status number }
{
    match number {
        None => Err(ReplyFault::BadLength(status)),
        Some(_) if has_no_content(status) => Ok(0),
        Some(length) if length > MAX_BODY => Err(ReplyFault::BodyTooLarge(status)),
        Some(length) => Ok(length),
    }
}

fn has_no_content(status: StatusCode) -> bool
    ensures { result ≡ has_no_content status }
{
    status.as_u16() == 204 || status.as_u16() == 304
}

/// Whether the connection ends with a reply of that minor version of HTTP/1.
fn closes_after(minor: u8, bytes: &[u8], headers: &[HeaderSpan]) -> bool
    requires { All (IsHeaderWithin (length bytes.now)) headers.now }
    ensures { result ≡ closes_after minor (map (header_bytes bytes.now) headers.now) }
{
    minor == 0 || lists_option(bytes, headers, b"close")
}

/// The value of a field that stands once.
fn one_value(alloc: Global, field: Field<'_>) -> Result<Option<Bytes>, AllocError>
    ensures { (values : List (List ℕ)) → IsFieldOf values field.entry → IfOk result (λ value. value ≡ one_value values) }
{
    match field {
        Field::One(value) => Ok(Some(Bytes::from_slice(alloc, value)?)),
        _ => Ok(None),
    }
}
