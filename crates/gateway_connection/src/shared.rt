//! What the gateway lends to its connections.
ghost use Rattle.std.specs.Prelude.{◌≡◌, [], IfOk};
ghost use Rattle.gateway_connection.specs.Jobs.{jobs_value};
ghost use Rattle.gateway_replies.specs.Hooks.{none_hooked};

use crate::jobs::JobQueue;
use call_plan::Plans;
use gateway_replies::{Contexts, Reply, ReplyHook};
use std::alloc::{AllocError, Global};

/// Calls of one connection that can end at once.
const MOST_ENDING: usize = 8;

/// What all connections live by, lent to each step of one.
#[derive(Drop)]
pub struct Shared<H> {
    pub alloc: Global,
    pub plans: Plans,
    /// The greatest moment so far, in milliseconds.
    pub moment: u64,
    pub contexts: Contexts<H>,
    pub jobs: JobQueue,
    /// How many calls were begun.
    pub begun: u64,
    /// The replies to calls that end, until they are all made and go into their slots.
    pub(crate) made: Vec<Reply>,
}

impl<H: ReplyHook + Drop> Shared<H> {
    /// No connection lives by it yet.
    pub fn new(alloc: Global, plans: Plans) -> Result<Shared<H>, AllocError>
        ensures plans { IfOk result (λ shared. shared.plans ≡ plans) }
        ensures moment { IfOk result (λ shared. shared.moment ≡ 0) }
        ensures contexts { IfOk result (λ shared. shared.contexts ≡ none_hooked) }
        ensures jobs { IfOk result (λ shared. shared.jobs ≡ jobs_value [] 0) }
        ensures begun { IfOk result (λ shared. shared.begun ≡ 0) }
        ensures made { IfOk result (λ shared. shared.made.items ≡ []) }
    {
        let made = Vec::with_capacity(alloc, MOST_ENDING)?;
        Ok(Shared {
            alloc,
            plans,
            moment: 0,
            contexts: Contexts::new(alloc)?,
            jobs: JobQueue::new(alloc),
            begun: 0,
            made,
        })
    }
}
