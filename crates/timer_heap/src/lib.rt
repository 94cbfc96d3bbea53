//! Timers over moments that the caller hands in, in milliseconds. Nothing here reads a clock.
//!
//! A timer is set under an id of the caller's choice. It waits until it is stopped, or until it is popped at a moment
//! that has reached its time.
#![tactic(auto)]

mod error;
mod heap;
pub mod laws;
mod timers;

pub use error::SetError;
pub use timers::Timers;
