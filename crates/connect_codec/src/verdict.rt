ghost use Rattle.std.specs.Prelude.{◌≡◌, ℕ, IfOk, IfSome, IsTrue, codes};
ghost use Rattle.std.specs.Option.{option_map_or};
ghost use Rattle.std.specs.Str.{bytes_eq};
ghost use Rattle.connect_codec.specs.Reply.{is_bare_status};
ghost use Rattle.connect_codec.specs.Verdict.{verdict_of, protocol_verdict, failure, HasBareStatus};

use crate::headers::{is_known_version, is_plain, names_json, request_id};
use error_document::{Code, RpcError};
use http_pieces::{Bytes, Request};
use json_values::is_json;
use std::alloc::{AllocError, Global};

/// What a request is.
#[derive(Debug, Drop, PartialEq, Eq)]
pub enum Verdict {
    /// A call, with its timeout in milliseconds and its id, where it has them.
    Ask {
        timeout: Option<u64>,
        request_id: Option<Bytes>,
    },
    /// No call. The reply has this status and no document.
    Bare(u16),
    /// No call. The reply is this error.
    Fail(RpcError),
}

/// Judges a request, of which `known` says whether its path names a plan. The first rule that
/// applies decides: a method other than `POST` (405), an unknown path (404), a content type other
/// than JSON (415); then, as errors of the protocol, a content encoding, another version of the
/// protocol, a bad timeout and a body that is no JSON. What is left is a call. A bare verdict takes no
/// memory.
pub fn judge(alloc: Global, request: &Request, known: bool) -> Result<Verdict, AllocError>
    ensures first_rule { IfOk result (λ verdict. verdict ≡ verdict_of request.now known) }
    ensures bare { IfOk result HasBareStatus }
    ensures bare_needs_no_memory { (status : ℕ) → verdict_of request.now known ≡ Verdict.Bare status
        → result ≡ Ok (Verdict.Bare status) }
{
    match bare_status(request, known) {
        Some(status) => Ok(Verdict::Bare(status)),
        None => judge_by_protocol(alloc, request),
    }
}

// The status of a request whose reply is bare.
#[tactic(auto, unfolding(crate::specs::Verdict::verdict_of))]
fn bare_status(request: &Request, known: bool) -> Option<u16>
    ensures first_rule { verdict_of request.now known
        ≡ option_map_or Verdict.Bare result (protocol_verdict request.now) }
    ensures bare { IfSome result (λ status. IsTrue (is_bare_status status)) }
{
    if !is_post(request) {
        return Some(405);
    }
    if !known {
        return Some(404);
    }
    if !names_json(request.field(b"Content-Type")) {
        return Some(415);
    }
    None
}

fn judge_by_protocol(alloc: Global, request: &Request) -> Result<Verdict, AllocError>
    ensures { IfOk result (λ verdict. verdict ≡ protocol_verdict request.now) }
{
    if !is_plain(request.field(b"Content-Encoding")) {
        return failure(alloc, Code::Unimplemented, "content encoding not supported");
    }
    if !is_known_version(request.field(b"Connect-Protocol-Version")) {
        return failure(
            alloc,
            Code::InvalidArgument,
            "Connect-Protocol-Version must be 1",
        );
    }
    let Ok(timeout) = timeout_header::read(request.field(b"Connect-Timeout-Ms")) else {
        return failure(alloc, Code::InvalidArgument, "bad Connect-Timeout-Ms");
    };
    if !is_json(alloc, request.body())? {
        return failure(alloc, Code::InvalidArgument, "body is not JSON");
    }
    let request_id = request_id(alloc, request.field(b"X-Request-Id"))?;
    Ok(Verdict::Ask {
        timeout,
        request_id,
    })
}

fn is_post(request: &Request) -> bool
    ensures { result ≡ bytes_eq request.now.method (codes "POST") }
{
    request.method() == b"POST".as_slice()
}

fn failure(alloc: Global, code: Code, message: &str) -> Result<Verdict, AllocError>
    ensures { IfOk result (λ verdict. verdict ≡ failure code message.now) }
{
    Ok(Verdict::Fail(RpcError::plain(alloc, code, message)?))
}
