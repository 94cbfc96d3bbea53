//! Callbacks that wait for a context to end, each called once or dropped uncalled (Go's `context.AfterFunc`, as an
//! object that runs nothing by itself).
#![tactic(auto)]

mod callbacks;
mod error;
mod hook;
mod id;
pub mod laws;
mod registration;

pub use callbacks::AfterFuncs;
pub use error::AfterError;
pub use hook::Hook;
pub use id::AfterId;
