ghost use Rattle.std.specs.Prelude.{◌≡◌, ◌++◌, not, codes, IfOk};
ghost use Rattle.std.specs.List.{flat_map};
ghost use Rattle.connect_codec.specs.BranchRequest.{branch_request, first_fields, request_line};
ghost use Rattle.connect_codec.specs.BranchAsk.{call_of, call_passing};
ghost use Rattle.connect_codec.specs.Message.{crlf, field_line, field_if};
ghost use Rattle.connect_codec.specs.Passed.{fields_passed};

use crate::ask::BranchAsk;
use crate::head::Head;
use crate::passed::Passed;
use http_pieces::Bytes;
use std::alloc::{AllocError, Global};

/// The whole request to a branch. It asks for the close of a connection that is not kept.
pub fn branch_request(alloc: Global, ask: &BranchAsk<'_>) -> Result<Bytes, AllocError>
    ensures { IfOk result (λ bytes. bytes ≡ branch_request (call_of ask.now)) }
{
    let head = first_of(alloc, ask)?;
    end(head, ask)
}

/// The same with the fields of the call's request that are passed on.
pub fn passing_request(
    alloc: Global,
    ask: &BranchAsk<'_>,
    passed: &Passed<'_>,
) -> Result<Bytes, AllocError>
    ensures { IfOk result (λ bytes. bytes ≡ branch_request (call_passing (fields_passed passed.now) ask.now)) }
{
    let mut head = first_of(alloc, ask)?;
    head.pass_on(passed)?;
    end(head, ask)
}

/// The request line, and the fields that each request to a branch begins with.
fn first_of(alloc: Global, ask: &BranchAsk<'_>) -> Result<Head, AllocError>
    ensures { IfOk result (λ head. head
        ≡ (request_line ask.now.path.now ++ crlf) ++ flat_map field_line (first_fields (call_of ask.now))) }
{
    let mut head = Head::of_call(alloc, ask.path)?;
    head.field("Host", ask.address.as_bytes())?;
    head.field("Content-Type", b"application/json")?;
    head.length(ask.body.len())?;
    head.field("Connect-Protocol-Version", b"1")?;
    if let Some(remaining) = ask.remaining {
        head.field(
            "Connect-Timeout-Ms",
            timeout_header::write(remaining).as_bytes(),
        )?;
    }
    if let Some(id) = ask.request_id {
        head.field("X-Request-Id", id)?;
    }
    Ok(head)
}

/// The whole request: the head, which ends with the field that asks for the close where that is due, an
/// empty line and the body.
fn end(mut head: Head, ask: &BranchAsk<'_>) -> Result<Bytes, AllocError>
    ensures { IfOk result (λ bytes. bytes
        ≡ head ++ flat_map field_line (field_if (not ask.now.keeps) (codes "Connection", codes "close"))
        ++ crlf ++ ask.now.body.now) }
{
    if !ask.keeps {
        head.field("Connection", b"close")?;
    }
    head.end(ask.body)
}
