ghost use Rattle.std.specs.Prelude.{◌≡◌};

use crate::limits::MOST_EXCHANGES;
use branch_asking::{BranchEnd, Network};
use branch_causes::Cause;
use std::alloc::{AllocError, Global};
use std::collections::VecDeque;
use wires::Wire;

/// What came of branches, until it is told. No law speaks of it.
#[derive(Drop)]
pub(crate) struct Ends {
    waiting: VecDeque<BranchEnd>,
    // whether the drain has begun
    is_drained: bool,
}

impl Ends {
    /// Nothing came of any.
    pub(crate) fn new(alloc: Global) -> Result<Ends, AllocError> {
        Ok(Ends {
            waiting: VecDeque::with_capacity(alloc, MOST_EXCHANGES)?,
            is_drained: false,
        })
    }

    /// The drain begins: branches that are given up from now on are drained.
    pub(crate) fn drain(&mut self) {
        self.is_drained = true;
    }

    /// Keeps what came of a branch until it is told. For want of memory it is not.
    pub(crate) fn keep(&mut self, mut end: BranchEnd) {
        if self.is_drained && end.cause == Cause::NotWanted {
            end.cause = Cause::Drained;
        }
        let _ = self.waiting.push_back(end);
    }

    /// Whether all was told.
    pub(crate) fn is_empty(&self) -> bool {
        self.waiting.is_empty()
    }

    /// Tells what came of branches.
    pub(crate) fn tell<W: Wire, N: Network<W>>(&mut self, net: &mut N)
        ensures { N.value net.new ≡ N.value net.old }
    {
        for end in self.waiting.drain(..) {
            net.tell_branch(&end);
        }
    }
}
