ghost use Rattle.std.specs.Prelude.{◌≡◌, ◌≤◌, ◌^◌, ◌++◌, IfOk, [], map, length, nat_lt, option_to_list};
ghost use Rattle.std.specs.List.{range_with_len};
ghost use Rattle.std.specs.Arc.{arc_value};
ghost use Rattle.std.specs.Vec.{vec_capacity};
ghost use Rattle.gateway_model.specs.Past.{deadline_from};
ghost use Rattle.gateway_connection.specs.KeptCall.{HasGone, IsBegun};

use crate::kept::Kept;
use crate::live::Live;
use crate::task::Task;
use crate::times::deadline_of;
use call_plan::Plan;
use err_group::Group;
use gateway_model::CallId;
use gateway_replies::ArrivedCall;
use std::alloc::{AllocError, Global};
use std::collections::VecDeque;
use std::sync::Arc;

/// A call that begins.
#[derive(Drop)]
pub struct Begun {
    pub(crate) call: Kept,
    /// The branches that start at once: those below the plan's limit. The others wait.
    pub(crate) first: VecDeque<Task>,
}

/// A call as it begins at this moment.
pub fn begin(
    alloc: Global,
    id: CallId,
    asked: ArrivedCall,
    moment: u64,
) -> Result<Begun, AllocError>
    requires { moment ≤ 2 ^ 62 }
    ensures { IfOk result (λ made. IsBegun moment id asked made.call made.first.items) }
{
    let plan = Arc::try_clone(&asked.plan)?;
    let asked = Arc::new(alloc, asked)?;
    let count = plan.branches().len();
    let started = count.min(plan.limit() as usize);
    let events = Vec::with_capacity(alloc, count)?;
    let deadlines = first_deadlines(alloc, &plan, started, moment)?;
    let out = first_out(alloc, count, started)?;
    let mut group = Group::new(alloc);
    let _ = group.set_limit(Some(plan.limit()));
    let first = give(alloc, &id, &asked, &mut group)?;
    let live = Some(Live {
        asked,
        plan,
        events,
        deadlines,
    });
    let call = Kept {
        id,
        out,
        group,
        live,
    };
    Ok(Begun { call, first })
}

/// Gives the call's branches to its group, in declared order: those that start at once.
fn give(
    alloc: Global,
    id: &CallId,
    asked: &Arc<ArrivedCall>,
    group: &mut Group<Task, ()>,
) -> Result<VecDeque<Task>, AllocError>
    requires { HasGone id.now (arc_value asked.now) 0 group.old [] }
    ensures { IfOk result (λ first. HasGone id.now (arc_value asked.now) (length (arc_value asked.now).plan.branches) group.new first.items) }
{
    let mut first = VecDeque::new(alloc);
    for index in 0..asked.plan.branches().len() {
        let task = Task {
            call: *id,
            branch: index as u32,
            asked: Arc::try_clone(asked)?,
        };
        let Ok(started) = group.go(task) else {
            return Err(AllocError);
        };
        keep(&mut first, started)?;
    }
    Ok(first)
}

/// Keeps the task, if it has started.
fn keep(first: &mut VecDeque<Task>, started: Option<Task>) -> Result<(), AllocError>
    ensures { IfOk result (λ _. first.new.items ≡ first.old.items ++ option_to_list started) }
{
    if let Some(task) = started {
        first.push_back(task)?;
    }
    Ok(())
}

/// The branches below `first` are out, of so many.
fn first_out(alloc: Global, count: usize, first: usize) -> Result<Vec<bool>, AllocError>
    ensures { IfOk result (λ out. out.items ≡ map (λ i. nat_lt i first) (range_with_len 0 count)) }
{
    let mut out = Vec::new(alloc);
    for index in 0..count {
        out.push(index < first)?;
    }
    Ok(out)
}

/// The deadlines of the branches below `first`, which start at this moment, with room for those of all.
fn first_deadlines(
    alloc: Global,
    plan: &Plan,
    first: usize,
    moment: u64,
) -> Result<Vec<Option<u64>>, AllocError>
    requires moment { moment ≤ 2 ^ 62 }
    requires few { first ≤ length plan.now.branches }
    ensures items { IfOk result (λ made. made.items ≡ map (deadline_from moment plan.now) (range_with_len 0 first)) }
    ensures room { IfOk result (λ made. length plan.now.branches ≤ vec_capacity made) }
{
    let mut deadlines = Vec::with_capacity(alloc, plan.branches().len())?;
    for branch in 0..first {
        deadlines.push_reserved(deadline_of(plan, branch, moment));
    }
    Ok(deadlines)
}
