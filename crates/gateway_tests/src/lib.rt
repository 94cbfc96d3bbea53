//! The worked rows of what the gateway promises: what the definitions give for a few lists of events. And a hook of a
//! call, made of a closure. Nothing of it runs.
#![tactic(auto)]

mod hook_of_a_box;
mod rows;
mod rows_branches;
mod rows_breaks;
mod rows_connections;
mod rows_corners;
mod rows_passed;
mod rows_replies;
mod rows_streams;
