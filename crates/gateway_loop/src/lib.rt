//! A loop that owns a gateway's core, its clients' streams and the exchanges with its backends, and does in turns what
//! can be done without waiting. It does no input or output but through a `Network` and its wires.
#![tactic(auto)]

mod client;
mod clients;
mod closing;
mod comings;
mod ending;
mod ends;
mod errands;
mod event_loop;
mod exchanges;
mod hints;
mod kept;
mod laws;
mod limits;
mod login;
mod names;
mod next_turn;
mod rest;
mod reusing;
mod serving;
mod tokens;
mod turn;
mod unasked;

pub use branch_asking::{BranchEnd, NamesAsked, Network};
pub use branch_causes::Cause;
pub use comings::{Comings, Dealt, LookedUp};
pub use event_loop::{EventLoop, LoopStanding};
pub use kept::KeptCounts;
pub use limits::{
    MOST_ADDRESSES, MOST_AGE, MOST_CLOSING, MOST_EXCHANGES, MOST_LINGERING, MOST_USES,
};
pub use next_turn::NextTurn;
pub use wires::Ready;
