//! The side of the program that reads files: it reads plan files and scripts, replays a script, and says how the
//! program ends where that fails.
#![tactic(auto)]

mod fault;
mod input;
mod patient;
mod plain_hook;
mod replaying;

pub use fault::Fault;
pub use input::{read_input, read_plan_input, read_text};
pub use plain_hook::{PlainHook, stock};
pub use replaying::replay;
