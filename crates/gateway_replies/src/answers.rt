//! The bytes that answer a request, by what it is answered by.
ghost use Rattle.std.specs.Prelude.{◌≡◌, IfOk, IsTrue, true, false};
ghost use Rattle.connect_codec.specs.Reply.{bare_reply, error_reply, is_bare_status};
ghost use Rattle.connect_codec.specs.Verdict.{HasBareStatus};
ghost use Rattle.gateway_theory.specs.Arrivals.{is_ask};
ghost use Rattle.gateway_model.specs.Arrival.{refusal_reply, verdict_reply};
ghost use Rattle.gateway_model.specs.Errors.{crowded_error};
ghost use Rattle.gateway_model.specs.Reply.{reply_of};
ghost use Rattle.error_document.specs.Documents.{plain_error};

use connect_codec::{Verdict, bare_reply, error_reply};
use error_document::{Code, RpcError};
use gateway_model::ReplyBytes;
use http_pieces::{Bytes, Refusal};
use std::alloc::{AllocError, Global};

/// The reply to a stream that is refused.
#[tactic(auto, unfolding(gateway_model::specs::Arrival::refusal_reply))]
pub(crate) fn refused(alloc: Global, refusal: Refusal) -> Result<ReplyBytes, AllocError>
    ensures { IfOk result (λ reply. reply ≡ refusal_reply refusal) }
{
    match refusal {
        Refusal::HeadTooLarge => last_bare(alloc, 431),
        Refusal::NotAHead => last_bare(alloc, 400),
        Refusal::LengthRequired => last_bare(alloc, 411),
        Refusal::BadLength => last_bare(alloc, 400),
        Refusal::BadHost => last_bare(alloc, 400),
        Refusal::BodyTooLarge => too_large(alloc),
    }
}

fn last_bare(alloc: Global, status: u16) -> Result<ReplyBytes, AllocError>
    requires { IsTrue (is_bare_status status) }
    ensures { IfOk result (λ reply. reply ≡ reply_of (bare_reply status true) true) }
{
    let bytes = bare_reply(alloc, status, true)?;
    Ok(ReplyBytes { bytes, last: true })
}

#[tactic(auto, unfolding(gateway_model::specs::Arrival::refusal_reply))]
fn too_large(alloc: Global) -> Result<ReplyBytes, AllocError>
    ensures { IfOk result (λ reply. reply ≡ refusal_reply Refusal.BodyTooLarge) }
{
    let bytes = error_bytes(
        alloc,
        Code::ResourceExhausted,
        "body larger than 65536 bytes",
        true,
    )?;
    Ok(ReplyBytes { bytes, last: true })
}

/// The reply to a request that is no call, by its verdict.
pub(crate) fn judged(alloc: Global, verdict: &Verdict, last: bool) -> Result<ReplyBytes, AllocError>
    requires no_call { is_ask verdict.now ≡ false }
    requires bare { HasBareStatus verdict.now }
    ensures { IfOk result (λ reply. reply ≡ verdict_reply verdict.now last) }
{
    let bytes = match verdict {
        Verdict::Ask { .. } => unreachable!(),
        Verdict::Bare(status) => bare_reply(alloc, *status, last)?,
        Verdict::Fail(error) => error_reply(alloc, error, last)?,
    };
    Ok(ReplyBytes { bytes, last })
}

/// The reply to a call too many.
pub(crate) fn crowded(alloc: Global, last: bool) -> Result<ReplyBytes, AllocError>
    ensures { IfOk result (λ reply. reply ≡ reply_of (error_reply crowded_error last) last) }
{
    let bytes = error_bytes(
        alloc,
        Code::ResourceExhausted,
        "more than 8 calls in flight",
        last,
    )?;
    Ok(ReplyBytes { bytes, last })
}

/// The reply that tells an error without details.
fn error_bytes(alloc: Global, code: Code, message: &str, last: bool) -> Result<Bytes, AllocError>
    ensures { IfOk result (λ bytes. bytes ≡ error_reply (plain_error code message.now) last) }
{
    let error = RpcError::plain(alloc, code, message)?;
    error_reply(alloc, &error, last)
}
