use crate::branch_counts::BranchCounts;
use crate::names::ServedNames;
use crate::rejections::{RejectionCounts, Rejections};
use crate::totals::{BranchTotals, ENDINGS, PlanTotals, place_of_ending, place_of_time};
use access_log::{ended, taken};
use branch_causes::Cause;
use gateway_model::ReplyEntry;
use std::alloc::{AllocError, Global};
use std::sync::Arc;
use std::sync::atomic::{AtomicU64, Ordering};

/// How the replies and the branches of one loop came out so far. The loop counts them, and whoever tells the figures
/// reads them meanwhile; neither waits for the other.
#[derive(Drop)]
pub struct LoopCounts {
    names: Arc<ServedNames>,
    // for each plan, and one more for what is no call
    counts: Vec<Counts>,
    branches: BranchCounts,
    rejections: RejectionCounts,
}

#[derive(Drop)]
struct Counts {
    ended: Vec<AtomicU64>,
    took: Vec<AtomicU64>,
    milliseconds: AtomicU64,
}

impl LoopCounts {
    /// No replies yet, of a loop that serves what has these names.
    pub fn new(alloc: Global, names: &Arc<ServedNames>) -> Result<LoopCounts, AllocError> {
        let mut counts = Vec::new(alloc);
        for _path in names.paths.iter() {
            counts.push(Counts::new(alloc)?)?;
        }
        counts.push(Counts::new(alloc)?)?;
        Ok(LoopCounts {
            names: Arc::try_clone(names)?,
            counts,
            branches: BranchCounts::new(alloc, names.branches.len())?,
            rejections: RejectionCounts::new(alloc)?,
        })
    }

    /// Counts a reply that was written at that moment, in the milliseconds in which the calls' arrivals are told.
    pub fn count(&self, moment: u64, entry: &ReplyEntry) {
        self.rejections.count(entry);
        let Some(counts) = self.counts.get(self.names.place_of_reply(entry)) else {
            return;
        };
        add(&counts.ended, place_of_ending(ended(entry)), 1);
        if let Some(milliseconds) = taken(moment, entry) {
            add(&counts.took, place_of_time(milliseconds), 1);
            counts
                .milliseconds
                .fetch_add(milliseconds, Ordering::SeqCst);
        }
    }

    /// Counts what ended the asking for the branch with that number of the plan with that path, after so many
    /// milliseconds. One whose backend was never asked is not counted.
    pub fn count_branch(&self, plan: &str, number: u32, cause: Cause, took: u64) {
        if let Some(place) = self.names.place_of_branch(plan, number) {
            self.branches.count(place, cause, took);
        }
    }

    /// Adds what was counted to the totals of each plan, and, behind them, of what is no call.
    pub fn add_to(&self, totals: &mut [PlanTotals]) {
        for (place, counts) in self.counts.iter().enumerate() {
            if let Some(totals) = totals.get_mut(place) {
                counts.add_to(totals);
            }
        }
    }

    /// Adds what was counted of replies to what is no call, by their statuses.
    pub fn add_rejections_to(&self, totals: &mut Rejections) {
        self.rejections.add_to(totals);
    }

    /// Adds what was counted to the totals of each branch.
    pub fn add_branches_to(&self, totals: &mut [BranchTotals]) {
        self.branches.add_to(totals);
    }
}

impl Counts {
    fn new(alloc: Global) -> Result<Counts, AllocError> {
        Ok(Counts {
            ended: zeros(alloc, ENDINGS)?,
            took: zeros(alloc, 14)?,
            milliseconds: AtomicU64::new(0),
        })
    }

    fn add_to(&self, totals: &mut PlanTotals) {
        sum(&self.ended, &mut totals.ended);
        sum(&self.took, &mut totals.took);
        let milliseconds = self.milliseconds.load(Ordering::SeqCst);
        totals.milliseconds = totals.milliseconds.saturating_add(milliseconds);
    }
}

/// So many counters, none of which has counted.
pub(crate) fn zeros(alloc: Global, count: usize) -> Result<Vec<AtomicU64>, AllocError> {
    let mut zeros = Vec::with_capacity(alloc, count)?;
    for _zero in 0..count {
        zeros.push(AtomicU64::new(0))?;
    }
    Ok(zeros)
}

/// Counts so many more in that place.
pub(crate) fn add(counts: &[AtomicU64], place: usize, more: u64) {
    if let Some(count) = counts.get(place) {
        count.fetch_add(more, Ordering::SeqCst);
    }
}

/// Adds each count to the total in its place.
pub(crate) fn sum(counts: &[AtomicU64], totals: &mut [u64]) {
    for (place, count) in counts.iter().enumerate() {
        if let Some(total) = totals.get_mut(place) {
            *total = total.saturating_add(count.load(Ordering::SeqCst));
        }
    }
}
