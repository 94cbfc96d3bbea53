//! Ends in memory, for tests and for whoever reads the contracts: a desk, streams, an inlet and a queue of replies,
//! which tell what they were given.
#![tactic(auto)]

mod desk;
mod inlet;
mod network;
mod replies;
mod room;
mod steps;
mod stream;

pub use desk::MemoryDesk;
pub use inlet::MemoryInlet;
pub use network::ScriptedNetwork;
pub use replies::MemoryReplies;
pub use steps::{Mark, StepReader, StepWriter};
pub use stream::{MemoryEnd, MemoryStream, StreamStep, memory_stream};
