//! What the address for operators is asked, and what it says: how many replies came of what and how long they took, and
//! so of branches, as Prometheus reads it; whether streams are accepted; and how far a drain is. It does no input or
//! output and reads no clock.
#![tactic(auto)]

mod answer;
mod asked;
mod branch_counts;
mod door;
mod drain;
mod kept;
mod labels;
mod loop_counts;
mod metrics;
mod names;
mod rejections;
mod totals;

pub use answer::{
    Readiness, drain_reply, forbidden_reply, metrics_reply, misdirected_reply, not_found_reply,
    only_get_reply, only_post_reply, ready_reply, refusal_reply,
};
pub use asked::{Asked, take_in};
pub use door::Door;
pub use drain::{Drain, Stage};
pub use kept::KeptFigures;
pub use loop_counts::LoopCounts;
pub use metrics::{Figures, LoopFigures, metrics_text};
pub use names::{BranchName, ServedNames};
pub use rejections::Rejections;
pub use totals::{BranchTotals, PlanTotals};
