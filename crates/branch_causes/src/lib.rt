//! What ended the asking of a backend, by name: for the log and the figures.
#![tactic(auto)]

mod cause;
pub mod laws;

pub use cause::{Cause, cause_of_end, is_timeout, status_of_end};
