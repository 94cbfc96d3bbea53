ghost use Rattle.std.specs.Prelude.{◌≡◌, IfOk, Some, string_bytes};
ghost use Rattle.serde_json.specs.Read.{read};
ghost use Rattle.access_log.specs.Standing.{standing_document, standing_line};

use crate::members::{Leaf, object_text};
use gateway_theory::Tally;
use std::alloc::{AllocError, Global};

/// How the gateway stands.
#[derive(Clone, Copy, PartialEq, Eq, Debug)]
pub struct Standing {
    /// The open connections.
    pub connections: u64,
    /// The streams that linger behind their last reply.
    pub lingering: u64,
    /// The backends that are asked.
    pub asking: u64,
    /// The branches that wait for a place to ask from.
    pub waiting: u64,
    /// The lines of the log that were left out so far.
    pub dropped: u64,
    /// How the results of branches were seen so far.
    pub tally: Tally,
}

/// The line for how the gateway stands at that time, in milliseconds from 1970: an object in JSON, with no LF.
#[tactic(auto, unfolding(crate::specs::Standing::standing_line))]
pub fn standing_line(alloc: Global, time: u64, standing: &Standing) -> Result<String, AllocError>
    ensures text { IfOk result (λ line. string_bytes line ≡ standing_line time standing.now) }
    ensures reads_back { IfOk result (λ line. read (string_bytes line) ≡ Some (standing_document time standing.now)) }
{
    object_text(
        alloc,
        &[
            ("asking", Leaf::Number(standing.asking)),
            ("connections", Leaf::Number(standing.connections)),
            ("counted", Leaf::Number(standing.tally.counted)),
            ("dropped", Leaf::Number(standing.dropped)),
            ("late", Leaf::Number(standing.tally.late)),
            ("lingering", Leaf::Number(standing.lingering)),
            ("time", Leaf::Number(time)),
            ("unknown", Leaf::Number(standing.tally.unknown)),
            ("waiting", Leaf::Number(standing.waiting)),
        ],
    )
}
