ghost use Rattle.std.specs.Prelude.{◌≡◌, ℕ, [], IfOk, unwrap_or};
ghost use Rattle.std.specs.Option.{option_copied};
ghost use Rattle.gateway_model.specs.CallRecord.{answer_in, answer_of_branch, answers_in};
ghost use Rattle.gateway_theory.specs.Replies.{joined_reply};

use call_plan::Plan;
use connect_codec::success_reply;
use gateway_model::CallEvent;
use http_pieces::Bytes;
use std::alloc::{AllocError, Global};

/// The reply to a call of the plan that succeeds: the answers among its events, joined.
pub(crate) fn joined(
    alloc: Global,
    plan: &Plan,
    events: &[CallEvent],
    last: bool,
) -> Result<Bytes, AllocError>
    ensures { IfOk result (λ bytes. bytes ≡ joined_reply plan.now events.now last) }
{
    let answers = answers_in(alloc, plan.branches().len(), events)?;
    let body = plan.join(alloc, &answers)?;
    success_reply(alloc, body.as_slice(), last)
}

/// The answers among the events, of so many branches in declared order.
fn answers_in(alloc: Global, count: usize, events: &[CallEvent]) -> Result<Vec<Bytes>, AllocError>
    ensures { IfOk result (λ answers. answers.items ≡ answers_in count events.now) }
{
    let mut answers = Vec::new(alloc);
    for branch in 0..count {
        answers.push(answer_of(alloc, branch, events)?)?;
    }
    Ok(answers)
}

/// The answer of the branch among the events; no bytes where there is none.
fn answer_of(alloc: Global, branch: usize, events: &[CallEvent]) -> Result<Bytes, AllocError>
    ensures { IfOk result (λ answer. answer ≡ unwrap_or (answer_of_branch branch events.now) []) }
{
    let mut answer = Bytes::new(alloc);
    for event in events {
        if let Some(body) = answer_in(branch, event) {
            answer = body.clone()?;
        }
    }
    Ok(answer)
}

/// The answer that the event brings of the branch.
fn answer_in(branch: usize, event: &CallEvent) -> Option<&Bytes>
    ensures { option_copied result ≡ answer_in branch event.now }
{
    match event {
        CallEvent::Answer(from, body) if *from as usize == branch => Some(body),
        _ => None,
    }
}
