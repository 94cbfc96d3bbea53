ghost use Rattle.std.specs.Prelude.{◌≡◌, IfOk, IsTrue, option_map};
ghost use Rattle.connect_codec.specs.Reply.{reply_bytes, success_reply, error_reply, bare_reply, is_bare_status};

use crate::head::Head;
use error_document::RpcError;
use http_pieces::Bytes;
use std::alloc::{AllocError, Global};

/// The reply of a call that succeeded: status 200 and the JSON of its answer. `last` says that no
/// reply follows on the connection.
#[tactic(auto, unfolding(crate::specs::Reply::success_reply))]
pub fn success_reply(alloc: Global, body: &[u8], last: bool) -> Result<Bytes, AllocError>
    ensures { IfOk result (λ bytes. bytes ≡ success_reply body.now last) }
{
    reply(alloc, 200, Some(body), last)
}

/// The reply that carries an error: the status of its code, and its document. `last` says that no
/// reply follows on the connection.
#[tactic(auto, unfolding(crate::specs::Reply::error_reply))]
pub fn error_reply(alloc: Global, error: &RpcError, last: bool) -> Result<Bytes, AllocError>
    ensures { IfOk result (λ bytes. bytes ≡ error_reply error.now last) }
{
    let document = error_document::write(alloc, error)?;
    reply(alloc, error.code.status(), Some(document.as_slice()), last)
}

/// The reply that has a status and no document, which is 400, 404, 405, 411, 415 or 431. `last` says
/// that no reply follows on the connection.
#[tactic(auto, unfolding(crate::specs::Reply::bare_reply))]
pub fn bare_reply(alloc: Global, status: u16, last: bool) -> Result<Bytes, AllocError>
    requires { IsTrue (is_bare_status status) }
    ensures { IfOk result (λ bytes. bytes ≡ bare_reply status last) }
{
    reply(alloc, status, None, last)
}

fn reply(
    alloc: Global,
    status: u16,
    document: Option<&[u8]>,
    last: bool,
) -> Result<Bytes, AllocError>
    ensures { IfOk result
        (λ bytes. bytes ≡ reply_bytes status (option_map (λ text. text.now) document.entry) last) }
{
    let body = document.unwrap_or(b"");
    let mut head = Head::of_reply(alloc, status)?;
    if document.is_some() {
        head.field("Content-Type", b"application/json")?;
    }
    if status == 405 {
        head.field("Allow", b"POST")?;
    }
    head.length(body.len())?;
    if last {
        head.field("Connection", b"close")?;
    }
    head.end(body)
}
