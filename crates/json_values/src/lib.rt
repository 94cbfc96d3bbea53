//! JSON values (RFC 8259), as `serde_json` reads them.
#![tactic(auto)]

mod check;
mod value;

pub use check::is_json;
pub use value::{json_value, text_at};
