use crate::call_event::CallEvent;
use call_plan::Plan;
use std::marker::Model;
use std::sync::Arc;

/// What became of a call.
#[derive(Drop)]
pub struct CallRecord {
    pub plan: Arc<Plan>,
    /// The moment of the call's arrival, in milliseconds.
    pub start: u64,
    /// The moment at which the call expires, if it ever does.
    pub deadline: Option<u64>,
    /// Whether the reply is the connection's last.
    pub last: bool,
    /// Of the branches that started, in declared order, the moment at which each expires, if it ever does.
    pub branch_deadlines: Vec<Option<u64>>,
    /// The call's own events in their order, by the one that decides it.
    pub events: Vec<CallEvent>,
}

impl Model for CallRecord {
    ghost use Rattle.std.specs.Arc.{arc_value};
    ghost use Rattle.gateway_model.specs.CallRecord.{CallRecord as Record};

    ghost Value = { Record };

    ghost view = { λ r. record {
      plan = arc_value r.plan;
      start = r.start;
      deadline = r.deadline;
      last = r.last;
      branch_deadlines = r.branch_deadlines.items;
      events = r.events.items;
    } };
}
