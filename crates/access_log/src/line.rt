ghost use Rattle.std.specs.Prelude.{◌≡◌, IfOk, Some, string_bytes};
ghost use Rattle.serde_json.specs.Read.{read};
ghost use Rattle.access_log.specs.Line.{caller_of, log_document, log_line};

use crate::members::{Leaf, object_text};
use crate::told;
use gateway_model::{CallId, ReplyEntry};
use std::alloc::{AllocError, Global};

/// Whose request a reply answers, as far as it is known.
#[derive(Clone, Copy, Debug)]
pub struct Caller<'a> {
    /// The id that the request names.
    pub request_id: Option<&'a str>,
    /// The target up to its first `?`, of a request that is no call.
    pub target: Option<&'a str>,
    /// The address and the port of the client.
    pub peer: Option<&'a str>,
}

/// The line for a reply by its entry: an object in JSON, with no LF. `time` is when it was written, in milliseconds
/// from 1970, and `moment` the same in the milliseconds in which the calls' arrivals are told. Each worker counts its
/// connections by itself.
#[tactic(auto, unfolding(crate::specs::Line::log_line))]
pub fn log_line<'a>(
    alloc: Global,
    time: u64,
    moment: u64,
    worker: u32,
    id: CallId,
    entry: &'a ReplyEntry,
    caller: &'a Caller<'a>,
) -> Result<String, AllocError>
    ensures text { IfOk result (λ line.
        string_bytes line ≡ log_line time moment worker id entry.now (caller_of caller.now)) }
    ensures reads_back { IfOk result (λ line.
        read (string_bytes line) ≡ Some (log_document time moment worker id entry.now (caller_of caller.now))) }
{
    let request_id = caller.request_id;
    object_text(
        alloc,
        &[
            ("branch", Leaf::of_text(told::branch(entry))),
            ("code", Leaf::of_text(told::code_name(entry))),
            ("connection", Leaf::Number(id.conn.number())),
            ("ended", Leaf::Text(told::ended(entry).name())),
            ("ms", Leaf::of_number(told::taken(moment, entry))),
            ("path", Leaf::of_text(told::path(entry))),
            ("peer", Leaf::of_text(caller.peer)),
            ("request", Leaf::Number(id.request)),
            ("request_id", Leaf::of_text(request_id)),
            ("status", Leaf::Number(u64::from(told::status(entry)))),
            ("target", Leaf::of_text(caller.target)),
            ("time", Leaf::Number(time)),
            ("worker", Leaf::Number(u64::from(worker))),
        ],
    )
}
