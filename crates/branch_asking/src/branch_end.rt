use branch_causes::Cause;
use gateway_core::Job;

/// What asking the backend of a branch came to. No law speaks of it.
#[derive(Drop)]
pub struct BranchEnd {
    /// The job that was asked for.
    pub job: Job,
    /// What ended it.
    pub cause: Cause,
    /// The backend's status, if a reply came.
    pub status: Option<u16>,
    /// The milliseconds that it took.
    pub took: u64,
    /// Whether its request went over a connection that was kept.
    pub is_reused: bool,
}
