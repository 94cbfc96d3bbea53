use gateway_core::Job;
use gateway_model::Start;
use http_pieces::Bytes;

/// What a run came to.
#[derive(Drop)]
pub struct Run {
    /// The places, in the list of events, of the openings that succeeded. Number c of them is connection c.
    pub opened: Vec<u64>,
    /// The bytes queued for each connection.
    pub queued: Vec<Bytes>,
    /// The starts of branches, in order.
    pub starts: Vec<Start>,
    /// The job of each start: what its backend is to be asked, and until when.
    pub jobs: Vec<Job>,
    /// The connections that want of memory broke, in rising order.
    pub broken: Vec<u64>,
}
