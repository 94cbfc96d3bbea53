ghost use Rattle.std.specs.Prelude.{◌≡◌, ◌++◌, [], ℕ, List, IfOk};
ghost use Rattle.http_pieces.specs.Reader.{HasRead};
ghost use Rattle.admin.specs.Asked.{Brings, asked_at, asked_of, drain_at, only_get};

use crate::door::{Door, is_named, may_drain};
use connect_codec::target_path;
use http_pieces::{Reader, Refusal, Request, State};
use std::alloc::AllocError;

/// What a visitor asks for.
#[derive(Clone, Copy, PartialEq, Eq, Debug)]
pub enum Asked {
    /// The figures: `GET /metrics`.
    Metrics,
    /// Whether streams are accepted: `GET /ready`.
    Ready,
    /// That the gateway is drained: `POST /drain`.
    Drain,
    /// A drain, by a request as a web page, a form or a gateway's branch makes it.
    Forbidden,
    /// Something under the name of another host.
    Misdirected,
    /// Another method than `GET` at a path that has that alone.
    OnlyGet,
    /// Another method than `POST` at a path that has that alone.
    OnlyPost,
    /// A path that is none of these.
    NotFound,
    /// Nothing: its stream is refused.
    Refused(Refusal),
}

/// Hands a piece of a visitor's stream to its reader. Tells what is asked for at this door as soon as the first request
/// is whole, or the stream is refused; what comes behind that is not looked at.
pub fn take_in(
    reader: &mut Reader,
    piece: &[u8],
    door: Door<'_>,
) -> Result<Option<Asked>, AllocError>
    ensures { (bytes : List ℕ) → HasRead reader.old bytes []
        → IfOk result (Brings door.entry bytes piece.now reader.new) }
{
    reader.push(piece)?;
    Ok(match reader.state() {
        State::More | State::Ended => None,
        State::Refused(refusal) => Some(Asked::Refused(refusal)),
        State::Complete => match reader.take() {
            Some(request) => Some(asked_of(&request, door)),
            None => None,
        },
    })
}

fn asked_of(request: &Request, door: Door<'_>) -> Asked
    ensures { result ≡ asked_of door.entry request.now }
{
    if !is_named(request, door) {
        return Asked::Misdirected;
    }
    match target_path(request) {
        Some(path) => asked_at(path, request, door),
        None => Asked::NotFound,
    }
}

fn asked_at(path: &[u8], request: &Request, door: Door<'_>) -> Asked
    ensures { result ≡ asked_at door.entry path.now request.now }
{
    if path == b"/metrics".as_slice() {
        only_get(request.method(), Asked::Metrics)
    } else if path == b"/ready".as_slice() {
        only_get(request.method(), Asked::Ready)
    } else if path == b"/drain".as_slice() {
        drain_at(request, door)
    } else {
        Asked::NotFound
    }
}

fn only_get(method: &[u8], asked: Asked) -> Asked
    ensures { result ≡ only_get method.now asked }
{
    if method == b"GET".as_slice() {
        asked
    } else {
        Asked::OnlyGet
    }
}

fn drain_at(request: &Request, door: Door<'_>) -> Asked
    ensures { result ≡ drain_at door.entry request.now }
{
    match door {
        Door::Watchers => Asked::NotFound,
        Door::Operators(_) if request.method() != b"POST".as_slice() => Asked::OnlyPost,
        Door::Operators(_) if may_drain(request) => Asked::Drain,
        Door::Operators(_) => Asked::Forbidden,
    }
}
