//! Replies, and what they are made of: what a call asks for, its context with its hook, and the reply that its record
//! comes to.
#![tactic(auto)]

mod answers;
mod arrived_call;
mod contexts;
mod decided;
mod ending;
mod held;
mod hook;
mod joined;
mod label;
mod reply;
mod stock;

pub use arrived_call::ArrivedCall;
pub use contexts::Contexts;
pub use decided::reply_to;
pub use ending::ending_reply;
pub use hook::{CallHook, ReplyHook};
pub use label::RequestLabel;
pub use reply::{Reply, crowded_reply, judged_reply, refused_reply};
pub use stock::{HOOKS, Stock};
