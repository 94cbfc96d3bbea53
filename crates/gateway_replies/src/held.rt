ghost use Rattle.std.specs.Prelude.{◌≡◌};

use call_plan::Plan;
use gateway_model::{CallEvent, CallRecord};
use http_pieces::Bytes;

/// Holds the answers of a call that succeeded in the reply that joins them: while that waits, each is held once.
pub(crate) fn hold_answers(call: &mut CallRecord, reply: &mut Bytes)
    ensures call { call.new ≡ call.old }
    ensures reply { reply.new ≡ reply.old }
{
    if let Some(CallEvent::Answer(_, _)) = call.events.last() {
        reply.share();
        hold_each(&call.plan, &mut call.events, reply);
    }
}

/// From the reply's last member to its first: behind each answer stands a comma or the brace that ends the object.
fn hold_each(plan: &Plan, events: &mut [CallEvent], reply: &Bytes)
    ensures { events.new ≡ events.old }
{
    let branches = plan.branches();
    let mut end = reply.len();
    for branch in (0..branches.len()).rev() {
        let start = hold_answer(branch, events, reply, end.saturating_sub(1));
        end = start.saturating_sub(quoted_len(branches[branch].name.as_str()));
    }
}

/// Where the answer of the branch begins that ends there.
fn hold_answer(branch: usize, events: &mut [CallEvent], reply: &Bytes, end: usize) -> usize
    ensures { events.new ≡ events.old }
{
    let mut start = end;
    for event in events.iter_mut() {
        start = hold_in(branch, event, reply, start);
    }
    start
}

/// The same of one event, which may be another's.
fn hold_in(branch: usize, event: &mut CallEvent, reply: &Bytes, end: usize) -> usize
    ensures { event.new ≡ event.old }
{
    match event {
        CallEvent::Answer(from, body) if *from as usize == branch => {
            let start = end.saturating_sub(body.len());
            body.hold_in(reply, start);
            start
        }
        _ => end,
    }
}

/// How long a member's name is, with its quotes and the colon.
fn quoted_len(name: &str) -> usize {
    name.len().saturating_add(3)
}
