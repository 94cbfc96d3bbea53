//! The line of the log for a branch whose backend was asked.
ghost use Rattle.std.specs.Prelude.{◌≡◌, IfOk, Some, false, string_bytes, true};
ghost use Rattle.serde_json.specs.Read.{read};
ghost use Rattle.access_log.specs.Branch.{asked_of, branch_document, branch_line, is_told};

use crate::members::{Leaf, object_text};
use branch_causes::Cause;
use gateway_model::CallId;
use std::alloc::{AllocError, Global};

/// What came of asking the backend of a branch.
#[derive(Clone, Copy, Debug)]
pub struct BranchAsked<'a> {
    pub call: CallId,
    /// The path of the call's plan.
    pub plan: &'a str,
    /// The name of the branch.
    pub branch: &'a str,
    /// The address of its backend, as the plan has it.
    pub address: &'a str,
    /// The milliseconds from its start on.
    pub took: u64,
    /// What ended it.
    pub cause: Cause,
    /// The backend's status, if a reply came.
    pub status: Option<u16>,
    /// The request id of the call, if it has one.
    pub request_id: Option<&'a str>,
    /// Whether its request went over a connection that was kept.
    pub is_reused: bool,
}

/// Whether a branch has a line: each that failed or was given up, and each that answered too where all are told.
pub fn tells_branch(cause: Cause, tells_all: bool) -> bool
    ensures { result ≡ is_told cause tells_all }
{
    tells_all || cause != Cause::Answer
}

/// The line for it: an object in JSON, with no LF. `time` is when it was told, in milliseconds from 1970. Each worker
/// counts its connections by itself.
pub fn branch_line(
    alloc: Global,
    time: u64,
    worker: u32,
    asked: &BranchAsked<'_>,
) -> Result<String, AllocError>
    ensures text { IfOk result (λ line. string_bytes line ≡ branch_line time worker (asked_of asked.now)) }
    ensures reads_back { IfOk result (λ line.
        read (string_bytes line) ≡ Some (branch_document time worker (asked_of asked.now))) }
{
    if asked.is_reused {
        reused_line(alloc, time, worker, asked)
    } else {
        opened_line(alloc, time, worker, asked)
    }
}

/// The line of a branch whose request went over a connection that was kept.
#[tactic(auto, unfolding(crate::specs::Branch::branch_line))]
fn reused_line(
    alloc: Global,
    time: u64,
    worker: u32,
    asked: &BranchAsked<'_>,
) -> Result<String, AllocError>
    requires { asked.now.is_reused ≡ true }
    ensures text { IfOk result (λ line. string_bytes line ≡ branch_line time worker (asked_of asked.now)) }
    ensures reads_back { IfOk result (λ line.
        read (string_bytes line) ≡ Some (branch_document time worker (asked_of asked.now))) }
{
    object_text(
        alloc,
        &[
            ("address", Leaf::Text(asked.address)),
            ("branch", Leaf::Text(asked.branch)),
            ("cause", Leaf::Text(asked.cause.name())),
            ("connection", Leaf::Number(asked.call.conn.number())),
            ("ms", Leaf::Number(asked.took)),
            ("path", Leaf::Text(asked.plan)),
            ("request", Leaf::Number(asked.call.request)),
            ("request_id", Leaf::of_text(asked.request_id)),
            ("reused", Leaf::True),
            ("status", Leaf::of_number(status_of(asked.status))),
            ("time", Leaf::Number(time)),
            ("worker", Leaf::Number(u64::from(worker))),
        ],
    )
}

/// The line of a branch whose request went over a new connection, or none.
#[tactic(auto, unfolding(crate::specs::Branch::branch_line))]
fn opened_line(
    alloc: Global,
    time: u64,
    worker: u32,
    asked: &BranchAsked<'_>,
) -> Result<String, AllocError>
    requires { asked.now.is_reused ≡ false }
    ensures text { IfOk result (λ line. string_bytes line ≡ branch_line time worker (asked_of asked.now)) }
    ensures reads_back { IfOk result (λ line.
        read (string_bytes line) ≡ Some (branch_document time worker (asked_of asked.now))) }
{
    object_text(
        alloc,
        &[
            ("address", Leaf::Text(asked.address)),
            ("branch", Leaf::Text(asked.branch)),
            ("cause", Leaf::Text(asked.cause.name())),
            ("connection", Leaf::Number(asked.call.conn.number())),
            ("ms", Leaf::Number(asked.took)),
            ("path", Leaf::Text(asked.plan)),
            ("request", Leaf::Number(asked.call.request)),
            ("request_id", Leaf::of_text(asked.request_id)),
            ("status", Leaf::of_number(status_of(asked.status))),
            ("time", Leaf::Number(time)),
            ("worker", Leaf::Number(u64::from(worker))),
        ],
    )
}

fn status_of(status: Option<u16>) -> Option<u64>
    ensures { result ≡ status }
{
    match status {
        Some(status) => Some(u64::from(status)),
        None => None,
    }
}
