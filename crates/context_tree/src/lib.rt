//! Derived contexts as Go's package `context` has them, over moments that the caller hands in, in milliseconds.
//!
//! A `Tree` keeps the contexts. One is derived from another, and is ended by its own cancel or deadline or by those of
//! the contexts that it derives from, whichever comes first.
#![tactic(auto)]

mod ended;
mod ending;
mod error;
mod id;
pub mod laws;
mod links;
mod node;
mod queue;
mod released;
mod tree;
mod walk;

pub use error::{Cause, CtxErr, CtxError, Unknown};
pub use id::CtxId;
pub use released::Released;
pub use tree::Tree;
