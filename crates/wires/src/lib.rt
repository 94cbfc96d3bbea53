//! Streams whose reads and writes do not wait, and what waits to be written to one.
//!
//! A `Wire` tells, for proofs, what was done at it, turn by turn: each read and each write, in order. `Told` makes a wire
//! of any `Stream`, as of a socket: it notes each turn in a history that takes no memory. A wire also knows whether it
//! may be read and written without waiting, by what was reported (`Ready`) and answered.
#![tactic(auto)]

mod got;
mod outbox;
mod ready;
mod told;
mod turns;
mod wire;

pub use got::{Got, Sent};
pub use outbox::Outbox;
pub use ready::Ready;
pub use told::{Stream, Told};
pub use wire::{PIECE, Wire};
