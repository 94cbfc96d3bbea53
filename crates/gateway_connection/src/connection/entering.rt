//! What comes on a connection's stream: it is answered at once, or begins a call.
ghost use Rattle.std.specs.Prelude.{[], ◌≡◌, ◌+◌, ◌<◌, ◌≤◌, ◌++◌, ◌^◌, Some, None as Nothing, IfErr, IfOk, OnOk, OnErr, false, true, length, map, option_map};
ghost use Rattle.std.specs.Arc.{arc_value};
ghost use Rattle.http_pieces.specs.Request.{most_requests};
ghost use Rattle.gateway_model.specs.Arrival.{arrival_of, plan_of};
ghost use Rattle.gateway_model.specs.Occurrence.{Coming};
ghost use Rattle.gateway_model.specs.declared.entry.ReplyEntry.TheVariants.{Refused};
ghost use Rattle.gateway_replies.specs.Contexts.{KeepsOthers};
ghost use Rattle.gateway_replies.specs.Hooks.{TakesAtMostOne};
ghost use Rattle.gateway_theory.specs.Begins.{begins};
ghost use Rattle.gateway_theory.specs.Conn.{is_full};
ghost use Rattle.gateway_theory.specs.Step.{step_to};
ghost use Rattle.gateway_theory.specs.Values.{gone};
ghost use Rattle.gateway_theory.specs.Task.{job_at};
ghost use Rattle.gateway_theory.specs.declared.fault.StepFault.TheVariants as fault;
ghost use Rattle.gateway_theory.specs.Held.{IsFault, arriving_in, coming_of, entered_held, hears, most_begun, next_held};
ghost use Rattle.gateway_connection.specs.Comes.{Arrives, Begins, Brings, BringsNone, MayFail, asking};
ghost use Rattle.gateway_connection.specs.Lent.{MayCome, MayStep};
ghost use Rattle.gateway_connection.specs.Linked.{none_over};

use crate::arriving::Arriving;
use crate::begin::{Begun, begin};
use crate::connection::Connection;
use crate::job::Job;
use crate::jobs::JobQueue;
use crate::shared::Shared;
use crate::task::Task;
use crate::times::start_first;
use call_plan::{Plan, Plans};
use connect_codec::laws::timeout_law;
use connect_codec::{Verdict, judge, target_path};
use gateway_replies::{
    ArrivedCall, Reply, ReplyHook, RequestLabel, crowded_reply, judged_reply, refused_reply,
    reply_to,
};
use gateway_theory::StepFault;
use http_pieces::{Refusal, Request, State};
use std::alloc::{AllocError, Global};
use std::collections::VecDeque;
use std::sync::Arc;

/// Calls that may be begun.
const MOST_BEGUN: u64 = 1 << 56;

impl Connection {
    /// A request comes, or the refusal that its stream has come to: it is answered at once, or begins a call. At a
    /// fault it has not come, but contexts of its call may be left.
    pub(crate) fn take_in<H: ReplyHook + Drop>(
        &mut self,
        shared: &mut Shared<H>,
        request: Option<Request>,
    ) -> Result<(), StepFault>
        requires may { MayStep none_over self.old shared.old }
        requires on { hears self.old ≡ true }
        requires room { (x : Coming) → coming_of shared.old.plans request self.old.reader.reading ≡ Some x → (next_held self.old).request < most_requests }
        ensures ok { OnOk result (Brings (coming_of shared.old.plans request self.old.reader.reading) self.old self.new shared.old shared.new) }
        ensures err { IfErr result (λ fault. BringsNone (coming_of shared.old.plans request self.old.reader.reading) fault self.old self.new shared.old shared.new) }
    {
        match request {
            Some(request) => match self.arriving(shared, request)? {
                Arriving::Answered(reply) => self.answer(reply),
                Arriving::Begins(asked) => self.begin(shared, asked),
            },
            None => match self.reader.state() {
                State::Refused(refusal) => self.refuse(shared.alloc, refusal),
                State::More | State::Complete | State::Ended => Ok(()),
            },
        }
    }

    /// The stream is refused.
    fn refuse(&mut self, alloc: Global, refusal: Refusal) -> Result<(), StepFault>
        requires { (next_held self.old).request < most_requests }
        ensures ok { OnOk result (self.new ≡ entered_held (step_to gone (Some (Refused refusal)) []) self.old) }
        ensures err { OnErr result (self.new ≡ self.old) }
        ensures fault { IfErr result (λ f. f ≡ fault.Memory) }
    {
        let reply = refused_reply(alloc, self.next_id(), refusal)?;
        self.answer(reply)
    }

    /// What a request comes to. A call gets its context; nothing else changes.
    fn arriving<H: ReplyHook + Drop>(
        &self,
        shared: &mut Shared<H>,
        request: Request,
    ) -> Result<Arriving, AllocError>
        requires { MayCome self.now shared.old }
        ensures ok { IfOk result (λ arriving. Arrives arriving (next_held self.now) (arriving_in shared.old.moment shared.old.contexts.standing.drained
            (Coming.Request request (arrival_of shared.old.plans request)) self.now) shared.old shared.new) }
        ensures err { OnErr result (MayFail self.now self.now shared.old shared.new) }
    {
        timeout_law();
        let plan = plan_named(&shared.plans, &request);
        match judge(shared.alloc, &request, plan.is_some())? {
            Verdict::Ask {
                timeout,
                request_id,
            } => match plan {
                Some(plan) => {
                    let asked = ArrivedCall::new(
                        shared.alloc,
                        plan,
                        request,
                        timeout,
                        request_id,
                        shared.moment,
                    )?;
                    self.asking(shared, asked)
                }
                None => unreachable!(),
            },
            verdict => {
                let label = RequestLabel::of_request(shared.alloc, &request);
                let last = request.closes();
                let reply = judged_reply(shared.alloc, self.next_id(), verdict, last, label)?;
                Ok(Arriving::Answered(reply))
            }
        }
    }

    /// What a call that is asked for comes to: it is crowded out, ends as it comes, where its context has ended by its
    /// making, or begins.
    fn asking<H: ReplyHook + Drop>(
        &self,
        shared: &mut Shared<H>,
        asked: ArrivedCall,
    ) -> Result<Arriving, AllocError>
        requires { MayCome self.now shared.old }
        ensures ok { IfOk result (λ arriving. Arrives arriving (next_held self.now)
            (asking (is_full self.now.slots) shared.old.moment shared.old.contexts.standing.drained (next_held self.now) asked) shared.old shared.new) }
        ensures err { OnErr result (MayFail self.now self.now shared.old shared.new) }
    {
        self.held_law();
        let id = self.next_id();
        if self.is_full() {
            let label = RequestLabel::of_request(shared.alloc, &asked.request);
            let reply = crowded_reply(shared.alloc, id, asked.request.closes(), label)?;
            return Ok(Arriving::Answered(reply));
        }
        shared.contexts.begin(&id, &asked, shared.moment)?;
        match shared.contexts.ending(&id, shared.moment) {
            Some(event) => {
                let label = RequestLabel::of_call(&asked.request_id);
                let call = asked.end(shared.alloc, event)?;
                let reply = reply_to(shared.alloc, &mut shared.contexts, id, call, label)?;
                Ok(Arriving::Answered(reply))
            }
            None => {
                start_first(&mut shared.contexts, &id, &asked, shared.moment)?;
                Ok(Arriving::Begins(asked))
            }
        }
    }

    /// What comes is answered at once.
    fn answer(&mut self, reply: Reply) -> Result<(), StepFault>
        requires its { reply.id ≡ next_held self.old }
        requires room { (next_held self.old).request < most_requests }
        ensures ok { OnOk result (self.new ≡ entered_held (step_to gone (Some reply.entry) []) self.old) }
        ensures err { OnErr result (self.new ≡ self.old) }
        ensures fault { IfErr result (λ f. f ≡ fault.Memory) }
    {
        let Ok(()) = self.slots.push_back(Some(reply)) else {
            return Err(StepFault::Memory);
        };
        Ok(())
    }

    /// A call begins, and is counted, unless as many have begun as may.
    fn begin<H: ReplyHook + Drop>(
        &mut self,
        shared: &mut Shared<H>,
        asked: ArrivedCall,
    ) -> Result<(), StepFault>
        requires moment { shared.old.moment ≤ 2 ^ 62 }
        requires open { self.old.closed ≡ false }
        requires whole { self.old.broken ≡ false }
        requires room { (next_held self.old).request < most_requests }
        ensures ok { OnOk result (Begins (begins shared.old.moment Nothing (next_held self.old) asked) self.old self.new shared.old shared.new) }
        ensures err { OnErr result (self.new ≡ self.old) }
        ensures same { OnErr result (shared.new ≡ shared.old) }
        ensures fault { IfErr result (λ f. IsFault f shared.old.begun true) }
    {
        if shared.begun >= MOST_BEGUN {
            return Err(StepFault::Exhausted);
        }
        let id = self.next_id();
        self.calls.reserve(1)?;
        self.slots.reserve(1)?;
        let begun = begin(shared.alloc, id, asked, shared.moment)?;
        shared
            .jobs
            .reserve(begun.call.waiting() + begun.first.len())?;
        let Begun { call, first } = begun;
        self.calls.push_reserved(call);
        self.slots.push_back_reserved(None);
        start_all(&mut shared.jobs, first, shared.moment);
        shared.begun += 1;
        Ok(())
    }
}

/// The plan that the request's path names, if there is one.
fn plan_named<'a>(plans: &'a Plans, request: &Request) -> Option<&'a Arc<Plan>>
    ensures { option_map (λ p. arc_value p.now) result ≡ plan_of plans.now request.now }
{
    match target_path(request) {
        Some(path) => plans.find(path),
        None => None,
    }
}

/// Queues the jobs of the branches that start as their call begins.
fn start_all(jobs: &mut JobQueue, mut first: VecDeque<Task>, moment: u64)
    requires moment { moment ≤ 2 ^ 62 }
    requires room { length first.items ≤ jobs.old.waiting }
    ensures jobs { jobs.new.jobs ≡ jobs.old.jobs ++ map (job_at moment) first.items }
    ensures waits { jobs.new.waiting + length first.items ≡ jobs.old.waiting }
{
    while let Some(task) = first.pop_front() {
        jobs.push(Job::new(task, moment));
    }
}
