//! What `serve --log` says, in lines of JSON: what is served and what is wrong, each reply, what came of asking a
//! backend, each stream that is closed unserved, each connection that broke, and how the gateway stands.
#![tactic(auto)]

mod branch;
mod broken;
mod closed;
mod ending;
pub mod laws;
mod line;
mod members;
mod standing;
mod start;
mod told;

pub use branch::{BranchAsked, branch_line, tells_branch};
pub use broken::broken_line;
pub use closed::{Unserved, closed_line};
pub use ending::Ended;
pub use line::{Caller, log_line};
pub use standing::{Standing, standing_line};
pub use start::{Listening, Remark, remark_line, start_line};
pub use told::{ended, path, status, taken};
