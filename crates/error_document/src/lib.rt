//! The error codes of the Connect protocol and the JSON document that carries an error.
//!
//! A `Code` has a name and an HTTP status. `write` makes the document of an error, and `read` finds
//! the error that a reply other than 200 stands for, whatever its body is.
#![tactic(auto)]

mod code;
mod detail;
mod details;
mod document;
pub mod laws;
mod reply;

pub use code::{Code, inferred_code};
pub use detail::Detail;
pub use details::Details;
pub use document::{RpcError, write};
pub use reply::read;
