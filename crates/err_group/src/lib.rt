//! A group of tasks with a limit, as Go's package `errgroup` has it: how many are active, which wait for room, and
//! which error came first. A group runs nothing: it says what may start, and is told what has finished.
#![tactic(auto)]

mod error;
mod freed;
mod group;
pub mod laws;
mod waited;

pub use error::Active;
pub use freed::Freed;
pub use group::Group;
pub use waited::Waited;
