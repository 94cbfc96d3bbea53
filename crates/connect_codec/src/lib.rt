//! The Connect protocol over HTTP/1.1, for unary calls in JSON: which requests are calls, what the
//! replies and the requests to branches are, byte for byte, and what a branch's reply means.
#![tactic(auto)]

mod answer;
mod ask;
mod branch;
mod head;
mod headers;
pub mod laws;
mod meaning;
mod passed;
mod path;
mod reply;
mod text;
mod verdict;

pub use answer::Outcome;
pub use ask::BranchAsk;
pub use branch::{branch_request, passing_request};
pub use headers::named_id;
pub use meaning::outcome;
pub use passed::Passed;
pub use path::target_path;
pub use reply::{bare_reply, error_reply, success_reply};
pub use verdict::{Verdict, judge};
