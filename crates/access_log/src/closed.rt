//! The line of the log for a stream that was closed without a byte.
ghost use Rattle.std.specs.Prelude.{◌≡◌, IfOk, Some, string_bytes};
ghost use Rattle.serde_json.specs.Read.{read};
ghost use Rattle.access_log.specs.Closed.{closed_document, closed_line, unserved_name};

use crate::members::{Leaf, object_text};
use std::alloc::{AllocError, Global};

/// Why a stream was closed without a byte.
#[derive(Clone, Copy, PartialEq, Eq, Debug)]
pub enum Unserved {
    /// All connections are in use.
    NoPlace,
    /// There was no memory for it, or it could not be watched.
    NoMemory,
}

impl Unserved {
    /// As the log names it.
    pub fn name(self) -> &'static str
        ensures { result.now ≡ unserved_name self }
    {
        match self {
            Unserved::NoPlace => "no place",
            Unserved::NoMemory => "no memory",
        }
    }
}

/// The line for it, at that time in milliseconds from 1970: an object in JSON, with no LF.
#[tactic(auto, unfolding(crate::specs::Closed::closed_line))]
pub fn closed_line(alloc: Global, time: u64, why: Unserved) -> Result<String, AllocError>
    ensures text { IfOk result (λ line. string_bytes line ≡ closed_line time why) }
    ensures reads_back { IfOk result (λ line. read (string_bytes line) ≡ Some (closed_document time why)) }
{
    object_text(
        alloc,
        &[
            ("closed", Leaf::Text(why.name())),
            ("time", Leaf::Number(time)),
        ],
    )
}
