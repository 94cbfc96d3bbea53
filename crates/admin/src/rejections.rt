use crate::loop_counts::{add, sum, zeros};
use access_log::{Ended, ended, status};
use gateway_model::ReplyEntry;
use std::alloc::{AllocError, Global};
use std::sync::atomic::AtomicU64;

/// The endings of replies to what is no call whose statuses are counted.
pub(crate) const REJECTIONS: [Ended; 2] = [Ended::NoCall, Ended::Refusal];

/// The statuses that such a reply can have.
pub(crate) const STATUSES: [u16; 8] = [400, 404, 405, 411, 415, 429, 431, 501];

/// So many pairs of them there are.
const PAIRS: usize = 16;

/// How many replies to what is no call had which status, by their ending.
#[derive(Clone, Copy, PartialEq, Eq, Debug)]
pub struct Rejections {
    pub(crate) counts: [u64; PAIRS],
}

impl Rejections {
    /// None.
    pub fn new() -> Rejections {
        Rejections { counts: [0; PAIRS] }
    }
}

/// The same of one loop, which counts them.
#[derive(Drop)]
pub(crate) struct RejectionCounts {
    counts: Vec<AtomicU64>,
}

impl RejectionCounts {
    pub(crate) fn new(alloc: Global) -> Result<RejectionCounts, AllocError> {
        Ok(RejectionCounts {
            counts: zeros(alloc, PAIRS)?,
        })
    }

    /// Counts the reply, if it is one to what is no call.
    pub(crate) fn count(&self, entry: &ReplyEntry) {
        let of_ending = REJECTIONS.iter().position(|kind| *kind == ended(entry));
        let of_status = STATUSES.iter().position(|kind| *kind == status(entry));
        if let (Some(ending), Some(status)) = (of_ending, of_status) {
            add(&self.counts, ending * STATUSES.len() + status, 1);
        }
    }

    pub(crate) fn add_to(&self, totals: &mut Rejections) {
        sum(&self.counts, &mut totals.counts);
    }
}
