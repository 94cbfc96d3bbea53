ghost use Rattle.std.specs.Prelude.{◌≡◌, ◌≤◌, ◌^◌};
ghost use Rattle.std.specs.Arc.{arc_value};
ghost use Rattle.gateway_model.specs.Branch.{branch_at};
ghost use Rattle.gateway_model.specs.Past.{deadline_from};
ghost use Rattle.gateway_theory.specs.Task.{task_of};

use crate::times::deadline_of;
use call_plan::Branch;
use gateway_model::CallId;
use gateway_replies::ArrivedCall;
use std::marker::Model;
use std::sync::Arc;

/// A branch of a call that waits for its start.
#[derive(Drop)]
pub struct Task {
    pub(crate) call: CallId,
    pub(crate) branch: u32,
    pub(crate) asked: Arc<ArrivedCall>,
}

impl Model for Task {
    ghost use Rattle.std.specs.Prelude.{◌<◌, length};
    ghost use Rattle.std.specs.Arc.{arc_value};
    ghost use Rattle.gateway_theory.specs.Task.{task_of};
    ghost use Rattle.gateway_theory.specs.Values.{TaskValue};

    ghost Value = { TaskValue };

    ghost view = { λ t. task_of t.call (arc_value t.asked) t.branch };

    ghost invariant = { λ t. t.branch < length (arc_value t.asked).plan.branches };
}

impl Task {
    /// The branch as its plan has it.
    pub(crate) fn planned(&self) -> &Branch
        ensures { result.now ≡ branch_at self.now.asked.plan self.now.branch }
    {
        &self.asked.plan.branches()[self.branch as usize]
    }

    /// The deadline of its own that the branch has, if it starts at this moment.
    pub(crate) fn deadline(&self, moment: u64) -> Option<u64>
        requires { moment ≤ 2 ^ 62 }
        ensures { result ≡ deadline_from moment self.now.asked.plan self.now.branch }
    {
        deadline_of(&self.asked.plan, self.branch as usize, moment)
    }
}
