//! The gateway under a lock: workers that ask backends for the core's jobs, and the sums of what was done.
#![tactic(auto)]

mod book;
mod counter;
mod lock_desk;
mod next_reply;
mod remote;
mod working;

pub use book::Book;
pub use branch_exchange::Asked;
pub use counter::{Blanks, LedgerFull, Shares, Totals, WorkerShares};
pub use lock_desk::{Shared, State, worker};
pub use next_reply::NextReply;
pub use remote::{RemoteBackend, exchange};
pub use working::{Backend, Desk, DeskRecord, Gate, NoGate, work};
