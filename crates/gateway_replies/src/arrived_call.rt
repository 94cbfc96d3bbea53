ghost use Rattle.std.specs.Prelude.{◌≡◌, ◌≤◌, ◌+◌, ◌^◌, ◌∷◌, [], IfOk, IfSome, option_map};
ghost use Rattle.http_pieces.specs.declared.largest.TheConstants.{MAX_DECIMAL};
ghost use Rattle.std.specs.Arc.{arc_value};
ghost use Rattle.gateway_model.specs.Past.{asked_of, smaller};
ghost use Rattle.gateway_model.specs.Queue.{record_of};

use call_plan::Plan;
use gateway_model::{CallEvent, CallRecord};
use http_pieces::{Bytes, Request};
use std::alloc::{AllocError, Global};
use std::marker::Model;
use std::sync::Arc;

/// What a call asks for: shared by the call and its jobs.
pub struct ArrivedCall {
    pub plan: Arc<Plan>,
    pub request: Request,
    /// The id that its request names, to be passed on.
    pub request_id: Option<Arc<Bytes>>,
    /// The moment of its arrival, in milliseconds.
    pub start: u64,
    /// The moment at which it expires, if it ever does.
    pub deadline: Option<u64>,
}

// by hand, so that a drop is one call, where a derived one is written out at each return
impl Drop for ArrivedCall {
    fn drop(self) {
        let ArrivedCall {
            plan: _,
            request: _,
            request_id: _,
            start: _,
            deadline: _,
        } = self;
    }
}

impl Model for ArrivedCall {
    ghost use Rattle.std.specs.Prelude.{option_map};
    ghost use Rattle.std.specs.Arc.{arc_value};
    ghost use Rattle.gateway_model.specs.Past.{ArrivedCall as Asks};

    ghost Value = { Asks };

    ghost view = { λ a. record { plan = arc_value a.plan; request = a.request; request_id = option_map arc_value a.request_id; start = a.start; deadline = a.deadline } };
}

impl ArrivedCall {
    /// What a request of the plan asks for, as it comes at the moment `start`. `timeout` is the request's own, in
    /// milliseconds.
    pub fn new(
        alloc: Global,
        plan: &Arc<Plan>,
        request: Request,
        timeout: Option<u64>,
        request_id: Option<Bytes>,
        start: u64,
    ) -> Result<ArrivedCall, AllocError>
        requires start { start ≤ 2 ^ 62 }
        requires timely { IfSome timeout (λ t. t ≤ MAX_DECIMAL) }
        ensures { IfOk result (λ asked. asked ≡ asked_of start request (arc_value plan.now) timeout request_id) }
    {
        let plan = Arc::try_clone(plan)?;
        let deadline = after(start, least(timeout, plan.timeout()));
        let request_id = shared(alloc, request_id)?;
        Ok(ArrivedCall {
            plan,
            request,
            request_id,
            start,
            deadline,
        })
    }

    /// The record of a call that this event ends as it comes.
    pub fn end(self, alloc: Global, event: CallEvent) -> Result<CallRecord, AllocError>
        ensures { IfOk result (λ call. call ≡ record_of self [] (event ∷ [])) }
    {
        let last = self.request.closes();
        let mut events = Vec::new(alloc);
        events.push(event)?;
        let ArrivedCall {
            plan,
            request: _,
            request_id: _,
            start,
            deadline,
        } = self;
        Ok(CallRecord {
            plan,
            start,
            deadline,
            last,
            branch_deadlines: Vec::new(alloc),
            events,
        })
    }
}

/// The moment so long after another, if the time is given.
fn after(start: u64, timeout: Option<u64>) -> Option<u64>
    requires start { start ≤ 2 ^ 62 }
    requires timely { IfSome timeout (λ t. t ≤ MAX_DECIMAL) }
    ensures { result ≡ option_map (λ t. start + t) timeout }
{
    match timeout {
        Some(timeout) => Some(start + timeout),
        None => None,
    }
}

/// The smaller of two timeouts, of which either may be absent.
fn least(asked: Option<u64>, plan: Option<u64>) -> Option<u64>
    ensures { result ≡ smaller asked plan }
{
    match (asked, plan) {
        (Some(asked), Some(plan)) => Some(asked.min(plan)),
        (Some(timeout), None) | (None, Some(timeout)) => Some(timeout),
        (None, None) => None,
    }
}

/// The id, to be shared among the call's jobs.
fn shared(alloc: Global, id: Option<Bytes>) -> Result<Option<Arc<Bytes>>, AllocError>
    ensures { IfOk result (λ shared. option_map arc_value shared ≡ id) }
{
    match id {
        Some(id) => Ok(Some(Arc::new(alloc, id)?)),
        None => Ok(None),
    }
}
