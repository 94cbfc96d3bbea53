//! The threads of a connection, one that reads its stream and one that writes its replies, and the thread of the clock.
#![tactic(auto)]

mod pumping;
mod sides;
mod writing;

pub use pumping::{Fed, Heard, Inlet, pump};
pub use sides::{Clock, clock_side, read_side, write_side};
pub use writing::{Handed, ReplyQueue, write_replies};
