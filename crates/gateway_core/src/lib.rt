//! The gateway as one state machine: what comes in are openings, bytes and results of branches, what
//! goes out are jobs for backends and replies. It does no input or output and reads no clock.
#![tactic(auto)]

mod broadcast;
mod delivery;
mod gateway;

pub use delivery::deliver;
pub use gateway::Core;
pub use gateway_connection::Job;
pub use gateway_model::{
    CallEvent, CallId, CallRecord, ConnId, EndCause, Ending, ReplyBytes, ReplyEntry, Seen,
};
pub use gateway_replies::{CallHook, HOOKS, Reply, ReplyHook, RequestLabel, Stock, ending_reply};
pub use gateway_theory::{OpenError, StepFault, Tally, Took};
