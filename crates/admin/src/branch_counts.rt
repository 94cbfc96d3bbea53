use crate::loop_counts::{add, sum, zeros};
use crate::totals::{BranchTotals, CAUSES, place_of_cause};
use branch_causes::Cause;
use std::alloc::{AllocError, Global};
use std::sync::atomic::AtomicU64;

/// What asking their backends came to for the branches of one loop so far, by their places.
#[derive(Drop)]
pub(crate) struct BranchCounts {
    counts: Vec<Counts>,
}

#[derive(Drop)]
struct Counts {
    ended: Vec<AtomicU64>,
    milliseconds: Vec<AtomicU64>,
}

impl BranchCounts {
    /// None of so many branches was asked yet.
    pub(crate) fn new(alloc: Global, branches: usize) -> Result<BranchCounts, AllocError> {
        let mut counts = Vec::new(alloc);
        for _branch in 0..branches {
            counts.push(Counts {
                ended: zeros(alloc, CAUSES)?,
                milliseconds: zeros(alloc, CAUSES)?,
            })?;
        }
        Ok(BranchCounts { counts })
    }

    /// Counts what came of the branch in that place, after so many milliseconds, if its backend was asked.
    pub(crate) fn count(&self, place: usize, cause: Cause, took: u64) {
        let Some(cause) = place_of_cause(cause) else {
            return;
        };
        if let Some(counts) = self.counts.get(place) {
            add(&counts.ended, cause, 1);
            add(&counts.milliseconds, cause, took);
        }
    }

    /// Adds what was counted to the totals of each branch.
    pub(crate) fn add_to(&self, totals: &mut [BranchTotals]) {
        for (place, counts) in self.counts.iter().enumerate() {
            if let Some(totals) = totals.get_mut(place) {
                sum(&counts.ended, &mut totals.ended);
                sum(&counts.milliseconds, &mut totals.milliseconds);
            }
        }
    }
}
