//! What is wrong with a plan file or a script, and where: the text that `connect_gateway check` prints.
//!
//! Whether a file is fine is asked of `read_plans` and `read_script`, which read it for the gateway too. What is found
//! here is the place of the first fault, and what is taken and will not work.
#![tactic(auto)]

mod complaint;
mod event_fault;
mod finding;
mod form;
mod host;
mod json_fault;
mod lines;
mod nesting;
mod own_address;
mod pass_fault;
mod plan_fault;
mod plan_warnings;
mod report;
mod script_fault;
mod script_warnings;
mod served;
mod spelling;
mod structure;
mod warnings;

pub use report::{PlanReport, ScriptReport, not_opened, plan_report, script_report, too_long};
