//! The line of the log for a connection that broke.
ghost use Rattle.std.specs.Prelude.{◌≡◌, IfOk, Some, string_bytes};
ghost use Rattle.std.specs.Option.{option_copied};
ghost use Rattle.serde_json.specs.Read.{read};
ghost use Rattle.access_log.specs.Broken.{broken_document, broken_line};

use crate::members::{Leaf, object_text};
use gateway_model::ConnId;
use std::alloc::{AllocError, Global};

/// The line for a connection that broke for want of memory, told at that time in milliseconds from 1970: an object in
/// JSON, with no LF. `peer` is the address and the port of its client, if they are known.
#[tactic(auto, unfolding(crate::specs::Broken::broken_line))]
pub fn broken_line<'a>(
    alloc: Global,
    time: u64,
    worker: u32,
    conn: ConnId,
    peer: Option<&'a str>,
) -> Result<String, AllocError>
    ensures text { IfOk result (λ line. string_bytes line ≡ broken_line time worker conn (option_copied peer.entry)) }
    ensures reads_back { IfOk result (λ line.
        read (string_bytes line) ≡ Some (broken_document time worker conn (option_copied peer.entry))) }
{
    object_text(
        alloc,
        &[
            ("broke", Leaf::Text("no memory")),
            ("connection", Leaf::Number(conn.number())),
            ("peer", Leaf::of_text(peer)),
            ("time", Leaf::Number(time)),
            ("worker", Leaf::Number(u64::from(worker))),
        ],
    )
}
