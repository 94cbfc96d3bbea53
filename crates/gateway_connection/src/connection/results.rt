//! Results of branches, as they come to a connection.
ghost use Rattle.std.specs.Prelude.{[], ◌≡◌, ◌-◌, ◌<◌, ◌≤◌, ◌^◌, ◌++◌, IfOk, None as Nothing, OnErr, OnOk, length, map, option_to_list, true};
ghost use Rattle.gateway_model.specs.Past.{call_id};
ghost use Rattle.gateway_theory.specs.Step.{has_out};
ghost use Rattle.gateway_theory.specs.Store.{kept_at, waiting};
ghost use Rattle.gateway_theory.specs.Task.{job_at};
ghost use Rattle.gateway_theory.specs.Held.{Forgets, TakesStarved, back_held, lost_held, result_in};
ghost use Rattle.gateway_connection.specs.Ends.{IsOut, Settles, TakesAt, TakesFrom, Unsettled};
ghost use Rattle.gateway_connection.specs.Jobs.{jobs_value};
ghost use Rattle.gateway_connection.specs.Lent.{LeavesRest, MayStep};
ghost use Rattle.gateway_connection.specs.Linked.{none_over};
ghost use Rattle.gateway_connection.specs.OwnContexts.{IsTied};

use crate::connection::Connection;
use crate::job::Job;
use crate::jobs::JobQueue;
use crate::shared::Shared;
use crate::task::Task;
use connect_codec::Outcome;
use gateway_model::CallRecord;
use gateway_replies::{ReplyHook, RequestLabel, reply_to};
use gateway_theory::Took;
use std::alloc::AllocError;

impl Connection {
    /// A branch of the call of that request ends with that outcome. Where memory is refused to what this starts or
    /// decides, it breaks.
    pub fn result<H: ReplyHook + Drop>(
        &mut self,
        shared: &mut Shared<H>,
        request: u64,
        branch: u32,
        outcome: Outcome,
    ) -> Took
        requires { MayStep none_over self.old shared.old }
        ensures takes { TakesFrom request branch outcome result self.old self.new shared.old shared.new }
        ensures tied { IsTied none_over self.new shared.new.contexts }
        ensures begun { shared.new.begun ≡ shared.old.begun }
    {
        let Some(index) = self.out_at(request, branch) else {
            // by hand, as where a call is late
            drop(outcome);
            return Took::unknown();
        };
        let seen = self.calls[index].seen();
        if self.settle(shared, index, branch, outcome).is_err() {
            self.lose(shared, index, branch);
            return Took { seen, broke: true };
        }
        self.held_law();
        self.forget(index);
        Took { seen, broke: false }
    }

    /// A worker found no memory for what a branch ended with: where that counts, it breaks.
    pub fn starved<H: ReplyHook + Drop>(
        &mut self,
        shared: &mut Shared<H>,
        request: u64,
        branch: u32,
    ) -> Took
        requires { MayStep none_over self.old shared.old }
        ensures takes { TakesStarved (call_id self.old.number request) branch self.old self.new result }
        ensures tied { IsTied none_over self.new shared.new.contexts }
        ensures rest { LeavesRest [] self.old self.new shared.old shared.new }
        ensures begun { shared.new.begun ≡ shared.old.begun }
    {
        let Some(index) = self.out_at(request, branch) else {
            return Took::unknown();
        };
        let call = &self.calls[index];
        let seen = call.seen();
        if call.is_live() {
            self.lose(shared, index, branch);
            return Took { seen, broke: true };
        }
        self.give_back(index, branch);
        self.held_law();
        self.forget(index);
        Took { seen, broke: false }
    }

    /// Where the call of that request stands, if that branch of it is out.
    fn out_at(&self, request: u64, branch: u32) -> Option<usize>
        ensures { IsOut (call_id self.now.number request) branch self.now.calls result }
    {
        let Some(index) = self.find(request) else {
            return None;
        };
        if !self.calls[index].is_out(branch) {
            return None;
        }
        Some(index)
    }

    /// The call makes its step: the branch that starts next has its job, and a reply goes into its slot. Where memory
    /// is refused, nothing was queued, and the call has made its step or none.
    fn settle<H: ReplyHook + Drop>(
        &mut self,
        shared: &mut Shared<H>,
        index: usize,
        branch: u32,
        outcome: Outcome,
    ) -> Result<(), AllocError>
        requires may { MayStep none_over self.old shared.old }
        requires there { index < length self.old.calls }
        requires out { has_out (kept_at index self.old.calls).call branch ≡ true }
        ensures ok { OnOk result (Settles index (result_in shared.old.moment index branch outcome self.old) self.old self.new shared.old shared.new) }
        ensures err { OnErr result (Unsettled index branch self.old self.new shared.old shared.new) }
    {
        self.held_law();
        let label = self.label_at(index);
        let taken = self.take_at(shared, index, branch, outcome)?;
        let Some(decided) = taken else {
            return Ok(());
        };
        let id = self.calls[index].id();
        let reply = reply_to(shared.alloc, &mut shared.contexts, id, decided, label)?;
        self.fill(reply);
        Ok(())
    }

    /// What a log tells of the request of the call at that place.
    fn label_at(&self, index: usize) -> RequestLabel
        requires { index < length self.now.calls }
    {
        self.calls[index].label()
    }

    /// The call makes its step, and its record is given, if that decides it. Where memory is refused nothing changes.
    fn take_at<H: ReplyHook + Drop>(
        &mut self,
        shared: &mut Shared<H>,
        index: usize,
        branch: u32,
        outcome: Outcome,
    ) -> Result<Option<CallRecord>, AllocError>
        requires may { MayStep none_over self.old shared.old }
        requires there { index < length self.old.calls }
        requires out { has_out (kept_at index self.old.calls).call branch ≡ true }
        ensures ok { IfOk result (λ decided. TakesAt index branch outcome decided self.old self.new shared.old shared.new) }
        ensures err { OnErr result (Unsettled index branch self.old self.new shared.old shared.new) }
    {
        let call = &mut self.calls[index];
        shared.contexts.apart_law();
        call.going_law();
        if call
            .pass_on(&mut shared.contexts, branch, &outcome, shared.moment)
            .is_err()
        {
            // by hand, as where a call is late
            drop(outcome);
            return Err(AllocError);
        }
        let waited = call.waiting();
        let taken = call.take_result(branch, outcome, shared.moment);
        let fewer = waited - call.waiting();
        start(&mut shared.jobs, taken.next, fewer, shared.moment);
        Ok(taken.decided)
    }

    /// A branch comes back of the call at that place, which can't be decided any more.
    fn give_back(&mut self, index: usize, branch: u32)
        requires there { index < length self.old.calls }
        requires over { (kept_at index self.old.calls).call.live ≡ Nothing }
        ensures { self.new ≡ back_held index branch self.old }
    {
        self.calls[index].give_back(branch);
    }

    /// Memory was refused to a result that counts: it breaks, and the branch comes back, unless it has.
    fn lose<H: ReplyHook + Drop>(&mut self, shared: &mut Shared<H>, index: usize, branch: u32)
        requires there { index < length self.old.calls }
        requires waits { waiting self.old.calls ≤ shared.old.jobs.waiting }
        ensures lost { Forgets (kept_at index self.old.calls).id (lost_held index branch self.old) self.new }
        ensures tied { IsTied none_over self.new shared.new.contexts }
        ensures rest { LeavesRest [] self.old self.new shared.old shared.new }
        ensures begun { shared.new.begun ≡ shared.old.begun }
    {
        self.break_now(shared);
        self.give_back(index, branch);
        self.held_law();
        self.forget(index);
    }

    /// Forgets the call at that place, if it can't be decided any more and no branch of it is out.
    fn forget(&mut self, index: usize)
        requires { index < length self.old.calls }
        ensures { Forgets (kept_at index self.old.calls).id self.old self.new }
    {
        if self.calls[index].is_spent() {
            self.calls.remove(index);
        }
    }
}

/// So many branches wait no more. One of them starts, if that is given.
fn start(jobs: &mut JobQueue, next: Option<Task>, fewer: usize, moment: u64)
    requires moment { moment ≤ 2 ^ 62 }
    requires one { length (option_to_list next) ≤ fewer }
    requires room { fewer ≤ jobs.old.waiting }
    ensures { jobs.new ≡ jobs_value (jobs.old.jobs ++ map (job_at moment) (option_to_list next)) (jobs.old.waiting - fewer) }
{
    match next {
        Some(task) => {
            jobs.push(Job::new(task, moment));
            jobs.release(fewer - 1);
        }
        None => jobs.release(fewer),
    }
}
