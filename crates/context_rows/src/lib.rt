//! The worked rows of hooks and groups: what the definitions give for a few lists of operations. And one call with a
//! hook of its own. Nothing of it runs.
#![tactic(auto)]

mod call_of_a_connection;
mod rows_of_groups;
mod rows_of_hooks;
