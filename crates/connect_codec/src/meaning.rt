ghost use Rattle.std.specs.Prelude.{◌≡◌, IfOk};
ghost use Rattle.connect_codec.specs.Outcome.{outcome_of, outcome_of_success, failed};

use crate::answer::Outcome;
use crate::headers::is_json_type;
use error_document::{Code, RpcError};
use http::StatusCode;
use http_pieces::{Bytes, HttpReply};
use json_values::is_json;
use std::alloc::{AllocError, Global};

/// What a backend's reply means; None is a reply that was lost. Status 200 with a body of JSON, whose
/// content type says so, is the answer. Every other status is the error that the body or the status
/// names.
#[tactic(auto, unfolding(crate::specs::Outcome::outcome_of))]
pub fn outcome(alloc: Global, reply: Option<HttpReply>) -> Result<Outcome, AllocError>
    ensures { IfOk result (λ outcome. outcome ≡ outcome_of reply) }
{
    let Some(reply) = reply else {
        return failed(alloc, Code::Unavailable, "backend unreachable");
    };
    if reply.status == StatusCode::OK {
        outcome_of_success(alloc, reply.content_type, reply.body)
    } else {
        let error = error_document::read(alloc, reply.status, reply.body.as_slice())?;
        Ok(Outcome::Fail(error))
    }
}

fn outcome_of_success(
    alloc: Global,
    content_type: Option<Bytes>,
    body: Bytes,
) -> Result<Outcome, AllocError>
    ensures { IfOk result (λ outcome. outcome ≡ outcome_of_success content_type body) }
{
    if !content_type.is_some_and(|content_type| is_json_type(content_type.as_slice())) {
        return failed(alloc, Code::Internal, "unexpected content type");
    }
    if !is_json(alloc, body.as_slice())? {
        return failed(alloc, Code::Internal, "response is not JSON");
    }
    Ok(Outcome::Answer(body))
}

fn failed(alloc: Global, code: Code, message: &str) -> Result<Outcome, AllocError>
    ensures { IfOk result (λ outcome. outcome ≡ failed code message.now) }
{
    Ok(Outcome::Fail(RpcError::plain(alloc, code, message)?))
}
