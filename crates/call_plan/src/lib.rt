//! Plans: what a path of the gateway asks of which backends, and how their answers are joined.
//!
//! A `Plan` that exists is lawful, and the plans of a `Plans` have distinct paths. A plan file is a JSON array of
//! plans, read by `read_plans`.
#![tactic(auto)]

mod branch;
mod draft;
mod error;
mod field_names;
mod pass;
mod plan;
mod plans;
mod read;
mod rules;

pub use branch::Branch;
pub use error::PlanError;
pub use field_names::FieldNames;
pub use pass::{is_field_name, is_kept_back};
pub use plan::Plan;
pub use plans::Plans;
pub use read::{plans_of, read_plans};
pub use rules::{is_address, is_name, is_path};
