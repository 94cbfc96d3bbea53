//! What must be believed of an event loop: its clients, its exchanges, and how one list of events explains them.
#![tactic(auto)]

pub mod laws;
mod manner;

pub use manner::Manner;
