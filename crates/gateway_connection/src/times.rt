ghost use Rattle.std.specs.Prelude.{◌≡◌, ◌<◌, ◌≤◌, ◌^◌, IfSome, OnOk, OnErr, true};
ghost use Rattle.gateway_connection.specs.Linked.{branch_started, first_started};
ghost use Rattle.gateway_model.specs.Past.{deadline_from};
ghost use Rattle.gateway_replies.specs.Contexts.{KeepsOthers, is_life};
ghost use Rattle.gateway_theory.specs.Begins.{first_ones};

use call_plan::Plan;
use gateway_model::CallId;
use gateway_replies::{ArrivedCall, Contexts, ReplyHook};
use std::alloc::AllocError;

/// The deadline of its own that the branch of that number has, if it starts at this moment, in milliseconds.
pub fn deadline_of(plan: &Plan, branch: usize, moment: u64) -> Option<u64>
    requires { moment ≤ 2 ^ 62 }
    ensures deadline { result ≡ deadline_from moment plan.now branch }
    ensures later { IfSome result (λ at. moment < at) }
{
    match plan.branch_timeout(branch) {
        Some(timeout) => Some(moment + timeout),
        None => None,
    }
}

/// A branch of a call starts at this moment. With a deadline of its own it gets a context, which ends with its call's.
pub fn start_branch<H: ReplyHook + Drop>(
    contexts: &mut Contexts<H>,
    id: &CallId,
    branch: u32,
    deadline: Option<u64>,
    moment: u64,
) -> Result<(), AllocError>
    requires known { is_life id.now contexts.old.standing.calls ≡ true }
    requires later { IfSome deadline (λ at. moment < at) }
    ensures ok { OnOk result (contexts.new.standing ≡ branch_started id.now branch deadline contexts.old.standing) }
    ensures err { OnErr result (contexts.new.standing ≡ contexts.old.standing) }
    ensures stocks { contexts.new.stocks ≡ contexts.old.stocks }
{
    match deadline {
        Some(at) => contexts.start(id, branch, at, moment),
        None => Ok(()),
    }
}

/// The branches of a call that start as it begins, at this moment: those below its plan's limit.
pub fn start_first<H: ReplyHook + Drop>(
    contexts: &mut Contexts<H>,
    id: &CallId,
    asked: &ArrivedCall,
    moment: u64,
) -> Result<(), AllocError>
    requires known { is_life id.now contexts.old.standing.calls ≡ true }
    requires moment { moment ≤ 2 ^ 62 }
    ensures ok { OnOk result (contexts.new.standing ≡ first_started id.now moment asked.now.plan (first_ones asked.now) contexts.old.standing) }
    ensures others { KeepsOthers id.now.conn contexts.old.standing contexts.new.standing }
    ensures stocks { contexts.new.stocks ≡ contexts.old.stocks }
{
    let plan = &asked.plan;
    let first = plan.branches().len().min(plan.limit() as usize);
    for branch in 0..first {
        let deadline = deadline_of(plan, branch, moment);
        start_branch(contexts, id, branch as u32, deadline, moment)?;
    }
    Ok(())
}
