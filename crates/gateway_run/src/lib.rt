//! Whole runs of the gateway: a list of events in, the bytes queued for each connection out; the script that
//! such a list is read from, and the text that a run is written as.
#![tactic(auto)]

mod fault;
pub mod laws;
mod log;
mod outcome;
mod script;
mod stepping;
mod text;
mod whole;

pub use fault::ScriptError;
pub use gateway_model::{Event, RunError, Start};
pub use outcome::Run;
pub use script::read_script;
pub use stepping::{Stepped, step};
pub use text::{WriteFault, write_run};
pub use whole::{openings, run};
