//! Asks the backend of one branch in steps, none of which waits: over a stream to one of its addresses, and then to
//! the next.
#![tactic(auto)]

mod addresses;
mod asking;
mod attempt;
mod backend;
mod branch_end;
mod errand;
mod names_asked;
mod network;
mod shares;

pub use asking::{Asking, Concluded, Progress};
pub use attempt::Attempt;
pub use backend::Backend;
pub use branch_end::BranchEnd;
pub use errand::Errand;
pub use names_asked::NamesAsked;
pub use network::Network;
