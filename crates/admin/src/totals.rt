ghost use Rattle.std.specs.Prelude.{◌≡◌, ◌<◌, ◌≤◌, ◌↔◌, IfSome, None as Nothing, slice_index_or, ℕ};
ghost use Rattle.access_log.specs.declared.ending.Ended.TheVariants.{Refusal};
ghost use Rattle.admin.specs.declared.totals.TheConstants.{ALL_CAUSES, ALL_ENDINGS, MOST_MILLISECONDS};
ghost use Rattle.branch_causes.specs.declared.cause.Cause.TheVariants.{Failed, NeverAsked};

use access_log::Ended;
use branch_causes::Cause;

/// The fixed upper bounds of the histogram, in milliseconds; what took longer is counted behind them.
pub const MOST_MILLISECONDS: [u64; 13] = [
    1, 2, 5, 10, 20, 50, 100, 200, 500, 1_000, 2_000, 5_000, 10_000,
];

/// So many kinds of endings there are.
pub(crate) const ENDINGS: usize = 9;

/// So many causes there are that end the asking of a backend; `NeverAsked` is none of them.
pub(crate) const CAUSES: usize = 24;

/// What came of the replies to the calls of one plan, or to those that are no call.
#[derive(Clone, Copy, PartialEq, Eq, Debug)]
pub struct PlanTotals {
    /// How many replies there are of each ending.
    pub(crate) ended: [u64; ENDINGS],
    /// How many took so long: up to each bound and longer than the one before, and longer than the last.
    pub(crate) took: [u64; 14],
    /// How long all of them took together, in milliseconds.
    pub(crate) milliseconds: u64,
}

impl PlanTotals {
    /// No replies.
    pub fn new() -> PlanTotals {
        PlanTotals {
            ended: [0; ENDINGS],
            took: [0; 14],
            milliseconds: 0,
        }
    }
}

/// What came of asking the backend of one branch.
#[derive(Clone, Copy, PartialEq, Eq, Debug)]
pub struct BranchTotals {
    /// How often each cause ended it.
    pub(crate) ended: [u64; CAUSES],
    /// How long all of these took together, in milliseconds.
    pub(crate) milliseconds: [u64; CAUSES],
}

impl BranchTotals {
    /// It was not asked.
    pub fn new() -> BranchTotals {
        BranchTotals {
            ended: [0; CAUSES],
            milliseconds: [0; CAUSES],
        }
    }
}

/// The causes in the order of their places.
pub(crate) const ALL_CAUSES: [Cause; CAUSES] = [
    Cause::Answer,
    Cause::Status,
    Cause::ContentType,
    Cause::NotJson,
    Cause::Deadline,
    Cause::NotWanted,
    Cause::Drained,
    Cause::NoSuchName,
    Cause::Refused,
    Cause::NoRoute,
    Cause::NoConnection,
    Cause::Reset,
    Cause::Failed,
    Cause::ClosedEarly,
    Cause::BeforeRequest,
    Cause::BadHead,
    Cause::NoFixedLength,
    Cause::TooLong,
    Cause::TooManyPieces,
    Cause::NoDescriptor,
    Cause::NoMemory,
    Cause::NoPort,
    Cause::NoByte,
    Cause::BadChunk,
];

/// The place of the cause among those that are counted: there it is told again. None of a branch that was never asked,
/// which is not counted.
pub(crate) fn place_of_cause(cause: Cause) -> Option<usize>
    ensures within { IfSome result (λ place. place < 24) }
    ensures its { IfSome result (λ place. slice_index_or ALL_CAUSES place Failed ≡ cause) }
    ensures asked { (result ≡ Nothing) ↔ (cause ≡ NeverAsked) }
{
    let place = match cause {
        Cause::Answer => 0,
        Cause::Status => 1,
        Cause::ContentType => 2,
        Cause::NotJson => 3,
        Cause::Deadline => 4,
        Cause::NotWanted => 5,
        Cause::NeverAsked => return None,
        Cause::Drained => 6,
        Cause::NoSuchName => 7,
        Cause::Refused => 8,
        Cause::NoRoute => 9,
        Cause::NoConnection => 10,
        Cause::Reset => 11,
        Cause::Failed => 12,
        Cause::ClosedEarly => 13,
        Cause::BeforeRequest => 14,
        Cause::BadHead => 15,
        Cause::NoFixedLength => 16,
        Cause::TooLong => 17,
        Cause::TooManyPieces => 18,
        Cause::NoDescriptor => 19,
        Cause::NoMemory => 20,
        Cause::NoPort => 21,
        Cause::NoByte => 22,
        Cause::BadChunk => 23,
    };
    Some(place)
}

/// The endings in the order of their places.
pub(crate) const ALL_ENDINGS: [Ended; ENDINGS] = [
    Ended::Answers,
    Ended::Branch,
    Ended::BranchDeadline,
    Ended::Deadline,
    Ended::HangUp,
    Ended::Drain,
    Ended::NoCall,
    Ended::OneTooMany,
    Ended::Refusal,
];

/// The place of the ending among those that are counted: there it is told again.
pub(crate) fn place_of_ending(ended: Ended) -> usize
    ensures within { result < 9 }
    ensures its { slice_index_or ALL_ENDINGS result Refusal ≡ ended }
{
    match ended {
        Ended::Answers => 0,
        Ended::Branch => 1,
        Ended::BranchDeadline => 2,
        Ended::Deadline => 3,
        Ended::HangUp => 4,
        Ended::Drain => 5,
        Ended::NoCall => 6,
        Ended::OneTooMany => 7,
        Ended::Refusal => 8,
    }
}

/// The place of the first bound that is not below so many milliseconds; the one behind the last where all are.
pub(crate) fn place_of_time(milliseconds: u64) -> usize
    ensures within { result ≤ 13 }
    ensures below { (i : ℕ) → i < result → slice_index_or MOST_MILLISECONDS i 0 < milliseconds }
    ensures first { result < 13 → milliseconds ≤ slice_index_or MOST_MILLISECONDS result 0 }
{
    let mut place = 0;
    while place < MOST_MILLISECONDS.len() && MOST_MILLISECONDS[place] < milliseconds {
        place += 1;
    }
    place
}
