ghost use Rattle.std.specs.Prelude.{◌≡◌, IfOk, true, codes};
ghost use Rattle.error_document.specs.Documents.{plain_error};
ghost use Rattle.connect_codec.specs.Reply.{bare_reply, error_reply};
ghost use Rattle.gateway_model.specs.Arrival.{refusal_reply};
ghost use Rattle.admin.specs.Answer.{forbidden_reply, metrics_reply, misdirected_reply, only_get_reply, ready_reply, text_reply};

use connect_codec::{bare_reply, error_reply};
use error_document::{Code, RpcError};
use http_pieces::{Bytes, Refusal};
use std::alloc::{AllocError, Global};

/// Whether streams are accepted.
#[derive(Clone, Copy, PartialEq, Eq, Debug)]
pub enum Readiness {
    /// A stream would be accepted.
    Ready,
    /// All places are taken.
    Full,
    /// A drain was asked for.
    Draining,
    /// Nobody listens any more.
    Closed,
}

/// The reply to `GET /metrics`: this text of the figures.
#[tactic(auto, unfolding(crate::specs::Answer::metrics_reply))]
pub fn metrics_reply(alloc: Global, figures: &Bytes) -> Result<Bytes, AllocError>
    ensures { IfOk result (λ reply. reply ≡ metrics_reply figures.now) }
{
    let length = figures.len();
    let head = format!(in alloc;
        "HTTP/1.1 200 OK\r\nContent-Type: text/plain; version=0.0.4; charset=utf-8\r\nContent-Length: {length}\r\nConnection: close\r\n\r\n"
    )?;
    let mut reply = Bytes::from_slice(alloc, head.as_bytes())?;
    reply.extend_from_slice(figures.as_slice())?;
    Ok(reply)
}

/// The reply to `GET /ready`: a word, with 200 where a stream would be accepted and else 503.
pub fn ready_reply(alloc: Global, readiness: Readiness) -> Result<Bytes, AllocError>
    ensures { IfOk result (λ reply. reply ≡ ready_reply readiness) }
{
    match readiness {
        Readiness::Ready => text_reply(alloc, "200 OK", "ready"),
        Readiness::Full => text_reply(alloc, "503 Service Unavailable", "full"),
        Readiness::Draining => text_reply(alloc, "503 Service Unavailable", "draining"),
        Readiness::Closed => text_reply(alloc, "503 Service Unavailable", "closed"),
    }
}

/// The reply to `POST /drain`.
pub fn drain_reply(alloc: Global) -> Result<Bytes, AllocError>
    ensures { IfOk result (λ reply. reply ≡ text_reply (codes "200 OK") (codes "draining")) }
{
    text_reply(alloc, "200 OK", "draining")
}

/// The reply to a drain that is asked for as a page, a form or a branch does.
pub fn forbidden_reply(alloc: Global) -> Result<Bytes, AllocError>
    ensures { IfOk result (λ reply. reply ≡ forbidden_reply) }
{
    text_reply(
        alloc,
        "403 Forbidden",
        "ask for it as curl -X POST does: without Origin, Connect-Protocol-Version and a form's Content-Type\n",
    )
}

/// The reply to a request that names another host (RFC 9110, section 15.5.20).
pub fn misdirected_reply(alloc: Global) -> Result<Bytes, AllocError>
    ensures { IfOk result (λ reply. reply ≡ misdirected_reply) }
{
    text_reply(
        alloc,
        "421 Misdirected Request",
        "name this host by its number, as localhost or as --admin does; --ready takes any name\n",
    )
}

/// A text, with that status and its phrase.
#[tactic(auto, unfolding(crate::specs::Answer::text_reply))]
fn text_reply(alloc: Global, status: &str, text: &str) -> Result<Bytes, AllocError>
    ensures { IfOk result (λ reply. reply ≡ text_reply status.now text.now) }
{
    let length = text.len();
    let head = format!(in alloc;
        "HTTP/1.1 {status}\r\nContent-Type: text/plain; charset=utf-8\r\nContent-Length: {length}\r\nConnection: close\r\n\r\n"
    )?;
    let mut reply = Bytes::from_slice(alloc, head.as_bytes())?;
    reply.extend_from_slice(text.as_bytes())?;
    Ok(reply)
}

/// The reply at a path that is none.
pub fn not_found_reply(alloc: Global) -> Result<Bytes, AllocError>
    ensures { IfOk result (λ reply. reply ≡ bare_reply 404 true) }
{
    bare_reply(alloc, 404, true)
}

/// The reply to another method than `POST`, where that alone is allowed.
pub fn only_post_reply(alloc: Global) -> Result<Bytes, AllocError>
    ensures { IfOk result (λ reply. reply ≡ bare_reply 405 true) }
{
    bare_reply(alloc, 405, true)
}

/// The reply to another method than `GET`, where that alone is allowed (RFC 9110, section 15.5.6).
pub fn only_get_reply(alloc: Global) -> Result<Bytes, AllocError>
    ensures { IfOk result (λ reply. reply ≡ only_get_reply) }
{
    Bytes::from_slice(
        alloc,
        b"HTTP/1.1 405 Method Not Allowed\r\nAllow: GET\r\nContent-Length: 0\r\nConnection: close\r\n\r\n",
    )
}

/// The reply to a stream that is refused, as clients get it.
#[tactic(auto, unfolding(gateway_model::specs::Arrival::refusal_reply))]
pub fn refusal_reply(alloc: Global, refusal: Refusal) -> Result<Bytes, AllocError>
    ensures { IfOk result (λ reply. reply ≡ (refusal_reply refusal).bytes) }
{
    match refusal {
        Refusal::HeadTooLarge => bare_reply(alloc, 431, true),
        Refusal::NotAHead | Refusal::BadLength | Refusal::BadHost => bare_reply(alloc, 400, true),
        Refusal::LengthRequired => bare_reply(alloc, 411, true),
        Refusal::BodyTooLarge => too_large_reply(alloc),
    }
}

fn too_large_reply(alloc: Global) -> Result<Bytes, AllocError>
    ensures { IfOk result (λ reply. reply ≡ error_reply (plain_error Code.ResourceExhausted (codes "body larger than 65536 bytes")) true) }
{
    let error = RpcError::plain(
        alloc,
        Code::ResourceExhausted,
        "body larger than 65536 bytes",
    )?;
    let bytes = error_reply(alloc, &error, true)?;
    Ok(bytes)
}
