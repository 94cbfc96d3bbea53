ghost use Rattle.std.specs.Prelude.{◌≡◌, ℕ, List, map, length, All, IfOk};
ghost use Rattle.httparse.specs.Spans.{IsHeaderWithin, header_bytes};
ghost use Rattle.http_pieces.specs.Fields.{IsFieldOf};
ghost use Rattle.http_pieces.specs.Head.{body_length, stated_length, is_host, version_of};
ghost use Rattle.http_pieces.specs.Layout.{ReadsHead};

use crate::decimal::read_decimal;
use crate::field::Field;
use crate::lookup::find_field;
use crate::message::Message;
use crate::refusal::Refusal;
use crate::version::Version;
use httparse::Status;
use httparse::spans::{EMPTY_HEADER_SPAN, HeaderSpan, Span, parse_request};
use std::alloc::{AllocError, Global};

/// A head has at most so many fields.
pub(crate) const MAX_FIELDS: usize = 64;

/// A body has at most so many bytes.
pub(crate) const MAX_BODY: u64 = 65_536;

/// Where the parts of a request's head lie in its bytes.
#[derive(Debug, Drop)]
pub(crate) struct Head {
    pub(crate) method: Span,
    pub(crate) target: Span,
    pub(crate) version: Version,
    pub(crate) headers: Vec<HeaderSpan>,
}

/// Requests, as a kind of message.
pub(crate) struct Requests;

impl Message for Requests {
    ghost use Rattle.http_pieces.specs.Request.{HttpRequest};
    ghost use Rattle.http_pieces.specs.Layout.{request_form, request_single};

    type Head = Head;

    type Fault = Refusal;

    ghost Whole = { HttpRequest };

    ghost form = { request_form };

    ghost single = { request_single };

    fn too_large() -> Refusal {
        Refusal::HeadTooLarge
    }

    fn judge(alloc: Global, block: &[u8]) -> Result<Result<(Head, u64), Refusal>, AllocError> {
        let Some(head) = read_head(alloc, block)? else {
            return Ok(Err(Refusal::NotAHead));
        };
        Ok(match body_length(head.version, block, &head.headers) {
            Err(refusal) => Err(refusal),
            Ok(length) => Ok((head, length)),
        })
    }
}

/// Reads the block as one request head; None where it is none, or has more than 64 fields.
fn read_head(alloc: Global, block: &[u8]) -> Result<Option<Head>, AllocError>
    ensures { IfOk result (ReadsHead block.now) }
{
    let mut headers = [EMPTY_HEADER_SPAN; MAX_FIELDS];
    let Ok(Status::Complete(spans)) = parse_request(block, &mut headers) else {
        return Ok(None);
    };
    if spans.len != block.len() {
        return Ok(None);
    }
    let headers = Vec::from_slice(alloc, &headers[..spans.headers])?;
    Ok(Some(Head {
        method: spans.method,
        target: spans.path,
        version: version_of(spans.version),
        headers,
    }))
}

fn version_of(minor: u8) -> Version
    ensures { result ≡ version_of minor }
{
    if minor == 0 {
        Version::V10
    } else {
        Version::V11
    }
}

/// The length of the body that follows the head, or the head's refusal.
fn body_length(version: Version, bytes: &[u8], headers: &[HeaderSpan]) -> Result<u64, Refusal>
    requires { All (IsHeaderWithin (length bytes.now)) headers.now }
    ensures { result ≡ body_length version (map (header_bytes bytes.now) headers.now) }
{
    if !matches!(
        find_field(bytes, headers, b"transfer-encoding"),
        Field::None
    ) {
        return Err(Refusal::LengthRequired);
    }
    let length = stated_length(find_field(bytes, headers, b"content-length"));
    let host = has_host(version, find_field(bytes, headers, b"host"));
    match length {
        None => Err(Refusal::BadLength),
        Some(_) if !host => Err(Refusal::BadHost),
        Some(length) if length > MAX_BODY => Err(Refusal::BodyTooLarge),
        Some(length) => Ok(length),
    }
}

/// The length that `Content-Length` says, and 0 without the field; None where it says none.
pub(crate) fn stated_length(field: Field<'_>) -> Option<u64>
    ensures { (values : List (List ℕ)) → IsFieldOf values field.entry → result ≡ stated_length values }
{
    match field {
        Field::None => Some(0),
        Field::One(value) => read_decimal(value),
        Field::Many => None,
    }
}

fn has_host(version: Version, field: Field<'_>) -> bool
    ensures { (values : List (List ℕ)) → IsFieldOf values field.entry → result ≡ is_host version values }
{
    match field {
        Field::None => version == Version::V10,
        Field::One(_) => true,
        Field::Many => false,
    }
}
