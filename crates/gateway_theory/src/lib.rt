//! What each event makes of the gateway's state, and the theorems on it (`specs/lemmas`). Nothing here need be
//! believed: it is proved. The laws are facts on every list of events; their functions do nothing. No code of the
//! gateway is here.
#![tactic(auto)]

mod connection_rows;
pub mod event_laws;
mod fault;
pub mod laws;
pub mod request_laws;
pub mod served_laws;
mod tally;
mod trigger;

pub use fault::{OpenError, StepFault, Took};
pub use tally::Tally;
pub use trigger::Trigger;
