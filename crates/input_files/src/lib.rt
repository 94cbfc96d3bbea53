//! The files that the program's words name: a plan file that is served, and what `connect_gateway check` prints of a
//! plan file or a script.
#![tactic(auto)]

mod checking;
mod plan_file;

pub use checking::{check, check_plans, check_script};
pub use plan_file::PlanFile;
