ghost use Rattle.std.specs.Prelude.{◌≡◌, IfSome, Some};
ghost use Rattle.branch_exchange.specs.Outcomes.{outcome_of_asked};

use connect_codec::{Outcome, outcome};
use http_pieces::HttpReply;
use std::alloc::Global;

/// What came of asking a backend.
#[derive(Debug, Drop)]
pub enum Asked {
    /// The backend's whole reply.
    Reply(HttpReply),
    /// The backend could not be reached, or sent no whole reply.
    Lost,
    /// No memory was found for the request or the reply.
    NoMemory,
}

/// The outcome that an answer comes to, where memory is found for it.
pub fn outcome_of(alloc: Global, asked: Asked) -> Option<Outcome>
    ensures { IfSome result (λ outcome. outcome_of_asked asked ≡ Some outcome) }
{
    match asked {
        Asked::Reply(reply) => outcome(alloc, Some(reply)).ok(),
        Asked::Lost => outcome(alloc, None).ok(),
        Asked::NoMemory => None,
    }
}
