ghost use Rattle.std.specs.Prelude.{◌≡◌, IfOk, option_map};
ghost use Rattle.connect_codec.specs.Reply.{error_reply};
ghost use Rattle.gateway_model.specs.Branch.{branch_at};
ghost use Rattle.gateway_model.specs.Errors.{branch_error, cause_error, cause_of, ending_error};
ghost use Rattle.gateway_theory.specs.Endings.{ending_with};

use call_plan::Plan;
use connect_codec::error_reply;
use error_document::{Code, RpcError};
use gateway_model::{CallEvent, EndCause, Ending};
use http_pieces::{Bytes, Text};
use std::alloc::{AllocError, Global};

/// The reply to a call that ends so, for its hook to answer.
pub fn ending_reply(alloc: Global, ending: Ending) -> Result<Bytes, AllocError>
    ensures { IfOk result (λ bytes. bytes ≡ error_reply (ending_error ending) ending.last) }
{
    let Ending { cause, last } = ending;
    let error = error_of(alloc, cause)?;
    error_reply(alloc, &error, last)
}

/// The error that the caller is told.
fn error_of(alloc: Global, cause: EndCause) -> Result<RpcError, AllocError>
    ensures { IfOk result (λ error. error ≡ cause_error cause) }
{
    match cause {
        EndCause::Branch { name, error } => named(alloc, name.as_str(), &error),
        EndCause::Deadline => {
            RpcError::plain(alloc, Code::DeadlineExceeded, "context deadline exceeded")
        }
        EndCause::HangUp => RpcError::plain(alloc, Code::Canceled, "context canceled"),
        EndCause::Drain => RpcError::plain(alloc, Code::Unavailable, "gateway is draining"),
    }
}

/// How this event ends a call of the plan; an answer does not.
pub(crate) fn ending_of(
    alloc: Global,
    plan: &Plan,
    event: &CallEvent,
    last: bool,
) -> Result<Option<Ending>, AllocError>
    ensures { IfOk result
        (λ ending. ending ≡ option_map (λ cause. ending_with cause last) (cause_of plan.now event.now)) }
{
    let cause = match event {
        CallEvent::Answer(_, _) => return Ok(None),
        CallEvent::Failed(branch, error) => EndCause::Branch {
            name: Text::from_str(alloc, branch_name(plan, *branch))?,
            error: error.clone()?,
        },
        CallEvent::Expired(_) => EndCause::Deadline,
        CallEvent::BranchExpired(branch, _) => EndCause::Branch {
            name: Text::from_str(alloc, branch_name(plan, *branch))?,
            error: RpcError::plain(alloc, Code::DeadlineExceeded, "context deadline exceeded")?,
        },
        CallEvent::HungUp => EndCause::HangUp,
        CallEvent::Drained => EndCause::Drain,
    };
    Ok(Some(Ending { cause, last }))
}

fn branch_name(plan: &Plan, branch: u32) -> &str
    ensures { result.now ≡ (branch_at plan.now branch).name }
{
    match plan.branches().get(branch as usize) {
        Some(branch) => branch.name.as_str(),
        None => "",
    }
}

/// The error with its message behind the branch's name.
pub(crate) fn named(alloc: Global, name: &str, error: &RpcError) -> Result<RpcError, AllocError>
    ensures { IfOk result (λ e. e ≡ branch_error name.now error.now) }
{
    let mut message = String::from_str(alloc, name)?;
    if !error.message.as_str().is_empty() {
        message.push_str(": ")?;
        message.push_str(error.message.as_str())?;
    }
    Ok(RpcError {
        code: error.code,
        message: Text::from_string(message),
        details: error.details.clone()?,
    })
}
