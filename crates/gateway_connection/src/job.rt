ghost use Rattle.std.specs.Prelude.{◌≡◌, ◌≤◌, ◌^◌, option_map, true, ℕ};
ghost use Rattle.connect_codec.specs.Passed.{fields_passed};
ghost use Rattle.gateway_model.specs.Past.{smaller};
ghost use Rattle.gateway_theory.specs.Task.{job_at, left_at};

use crate::task::Task;
use connect_codec::Passed;
use gateway_model::CallId;
use std::marker::Model;
use std::sync::Arc;

/// One branch of a call, to be asked of its backend.
#[derive(Drop)]
pub struct Job {
    task: Task,
    /// The moment at which the branch started, in milliseconds.
    start: u64,
    /// Its call's deadline, or its own, if that is sooner.
    deadline: Option<u64>,
    wanted: bool,
}

impl Model for Job {
    ghost use Rattle.std.specs.Prelude.{◌≡◌};
    ghost use Rattle.gateway_theory.specs.Task.{HandedJob, job_at, left_at};

    ghost Value = { HandedJob };

    ghost view = { λ j. record { job = record (job_at j.start j.task) { deadline = j.deadline; remaining = left_at j.start j.deadline }; wanted = j.wanted } };
}

impl Job {
    /// The job of a branch that starts at this moment.
    pub(crate) fn new(task: Task, moment: u64) -> Job
        requires { moment ≤ 2 ^ 62 }
        ensures { result ≡ record { job = job_at moment task; wanted = true } }
    {
        let deadline = sooner(task.asked.deadline, task.deadline(moment));
        Job {
            task,
            start: moment,
            deadline,
            wanted: true,
        }
    }

    /// The job as it is handed out, and whether its answer is wanted.
    pub fn handed(self, wanted: bool) -> Job
        ensures { result ≡ record self { wanted = wanted } }
    {
        Job { wanted, ..self }
    }

    /// The call that the branch belongs to.
    pub fn call(&self) -> CallId
        ensures { result ≡ self.now.job.call }
    {
        self.task.call
    }

    /// The branch's number in its plan, from 0 in declared order.
    pub fn branch(&self) -> u32
        ensures { result ≡ self.now.job.branch }
    {
        self.task.branch
    }

    /// The path of its call's plan.
    pub fn plan_path(&self) -> &str
        ensures { result.now ≡ self.now.job.plan_path }
    {
        self.task.asked.plan.path()
    }

    /// The name of the branch.
    pub fn branch_name(&self) -> &str
        ensures { result.now ≡ self.now.job.branch_name }
    {
        self.task.planned().name.as_str()
    }

    /// The backend's address, `host:port`.
    pub fn address(&self) -> &str
        ensures { result.now ≡ self.now.job.address }
    {
        self.task.planned().address.as_str()
    }

    /// The path to ask for.
    pub fn path(&self) -> &str
        ensures { result.now ≡ self.now.job.path }
    {
        self.task.planned().path.as_str()
    }

    /// The body of the caller's request, to be sent on byte for byte.
    pub fn body(&self) -> &[u8]
        ensures { result.now ≡ self.now.job.body }
    {
        self.task.asked.request.body()
    }

    /// The request id to be passed on, if the caller named one (the field `X-Request-Id`).
    pub fn request_id(&self) -> Option<&[u8]>
        ensures { option_map (λ id. id.now) result ≡ self.now.job.request_id }
    {
        match &self.task.asked.request_id {
            Some(id) => Some(id.as_slice()),
            None => None,
        }
    }

    /// The fields of the caller's request that are passed on.
    pub fn passed(&self) -> Passed<'_>
        ensures { fields_passed result ≡ self.now.job.passed }
    {
        Passed {
            names: self.task.planned().pass.as_slice(),
            request: &self.task.asked.request,
        }
    }

    /// How long the branch had as it started, in milliseconds: until its own deadline or its call's, whichever comes
    /// first. None if neither has one.
    pub fn remaining(&self) -> Option<u64>
        ensures { result ≡ self.now.job.remaining }
    {
        match self.deadline {
            Some(deadline) => Some(deadline.saturating_sub(self.start)),
            None => None,
        }
    }

    /// The branch's own deadline or its call's, whichever comes first: a moment, in milliseconds. `remaining` is what
    /// was left of it as the branch started.
    pub fn deadline(&self) -> Option<u64>
        ensures deadline { result ≡ self.now.job.deadline }
        ensures left { (start : ℕ) × (self.now.job.remaining ≡ left_at start result) }
    {
        self.deadline
    }

    /// Whether its answer was still wanted as it was handed out: its call could be decided.
    pub fn wanted(&self) -> bool
        ensures { result ≡ self.now.wanted }
    {
        self.wanted
    }
}

/// The sooner of two deadlines, of which either may be absent.
fn sooner(call: Option<u64>, branch: Option<u64>) -> Option<u64>
    ensures { result ≡ smaller call branch }
{
    match (call, branch) {
        (Some(call), Some(branch)) => Some(call.min(branch)),
        (Some(deadline), None) | (None, Some(deadline)) => Some(deadline),
        (None, None) => None,
    }
}
