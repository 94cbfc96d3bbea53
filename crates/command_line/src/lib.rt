//! The words of the command line: what they ask the program for.
#![tactic(auto)]

mod task;
mod words;

pub use task::{Admin, Checked, CheckedFile, Log, OwnAddresses, Service, Task, task_of};
pub use words::read_words;
