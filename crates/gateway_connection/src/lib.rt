//! A connection: its stream's reader, the slots of its replies, its calls with their contexts and hooks, and what each
//! occurrence makes of them. It lives by what the gateway lends it.
#![tactic(auto)]

mod arriving;
mod begin;
mod connection;
mod job;
mod jobs;
mod kept;
mod live;
mod shared;
mod task;
mod times;

pub use connection::Connection;
pub use job::Job;
pub use jobs::JobQueue;
pub use shared::Shared;
