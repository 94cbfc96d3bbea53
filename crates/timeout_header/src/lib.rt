//! The field `Connect-Timeout-Ms`: the time that a caller gives a call, in milliseconds (Connect
//! protocol, unary requests).
#![tactic(auto)]

mod digits;
mod error;
mod value;

pub use digits::Digits;
pub use error::BadTimeout;
pub use value::{read, write};
