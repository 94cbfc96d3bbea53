//! One request to a backend and the one reply that comes, with no input or output of its own: whoever drives it writes
//! what is left of the request, and hands in what was read.
#![tactic(auto)]

mod asked;
mod exchange;
mod exchange_end;

pub use asked::{Asked, outcome_of};
pub use exchange::{Exchange, MOST_READS};
pub use exchange_end::{ExchangeEnd, Loss};
