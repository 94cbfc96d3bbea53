ghost use Rattle.std.specs.Prelude.{◌≡◌, ◌≤◌, ◌^◌, ℕ, IfOk, OnOk, OnErr, option_map, true, false, if◌then◌else◌, is_some, None as Nothing, Some, option_to_list, slice_set};
ghost use Rattle.std.specs.List.{count_by, list_any};
ghost use Rattle.gateway_replies.specs.Contexts.{is_life};
ghost use Rattle.gateway_connection.specs.KeptCall.{GoesOn, IsStep};
ghost use Rattle.gateway_connection.specs.Linked.{ends_with, passed_on};
ghost use Rattle.gateway_connection.specs.Ends.{LetsGo};
ghost use Rattle.gateway_theory.specs.Replies.{reply_with};
ghost use Rattle.gateway_theory.specs.Results.{back_kept, is_spent};
ghost use Rattle.gateway_theory.specs.Store.{given_up, waiting_in};
ghost use Rattle.gateway_model.specs.declared.seen.Seen.{Seen};
ghost use Rattle.gateway_theory.specs.Step.{has_out, next_out, result_on};
ghost use Rattle.gateway_theory.specs.Values.{Live as Going};

use crate::live::Live;
use crate::task::Task;
use crate::times::start_branch;
use connect_codec::Outcome;
use err_group::Group;
use gateway_model::{CallEvent, CallId, CallRecord, Seen};
use gateway_replies::{Contexts, Reply, ReplyHook, RequestLabel, reply_to};
use std::alloc::{AllocError, Global};
use std::marker::Model;

/// A call that is kept: its branches, and the call as long as it can be decided.
pub struct Kept {
    pub(crate) id: CallId,
    /// Which branches are out: started, and with no result since.
    pub(crate) out: Vec<bool>,
    /// Its branches as a group: those that are out are active, and those that wait for their start are queued.
    pub(crate) group: Group<Task, ()>,
    pub(crate) live: Option<Live>,
}

/// What comes of a result of a branch.
#[derive(Drop)]
pub struct AfterResult {
    /// The record of the call, if the result decided it.
    pub(crate) decided: Option<CallRecord>,
    /// The branch that starts in the other's place.
    pub(crate) next: Option<Task>,
}

// by hand, so that a drop is one call, where a derived one is written out at each return
impl Drop for Kept {
    fn drop(self) {
        let Kept {
            id: _,
            out: _,
            group: _,
            live: _,
        } = self;
    }
}

impl Model for Kept {
    ghost use Rattle.gateway_theory.specs.Values.{KeptValue};
    ghost use Rattle.gateway_connection.specs.KeptCall.{kept_value, IsKept};

    ghost Value = { KeptValue };

    ghost view = { λ c. kept_value c.id c.out.items c.group.queue c.live };

    ghost invariant = { λ c. IsKept c.id c.out.items c.group c.live };
}

impl Kept {
    /// Whether it can still be decided.
    pub(crate) fn is_live(&self) -> bool
        ensures { result ≡ is_some self.now.call.live }
    {
        self.live.is_some()
    }

    /// Whether no branch of it is out, and it can't be decided any more.
    pub(crate) fn is_spent(&self) -> bool
        ensures { result ≡ is_spent self.now.call }
    {
        self.live.is_none() && !self.is_any_out()
    }

    /// Whether a branch is out.
    pub(crate) fn is_any_out(&self) -> bool
        ensures { result ≡ list_any (λ b. b) self.now.call.out }
    {
        self.group.active() > 0
    }

    /// Whether the branch is out.
    pub(crate) fn is_out(&self, branch: u32) -> bool
        ensures { result ≡ has_out self.now.call branch }
    {
        let index = branch as usize;
        index < self.out.len() && self.out[index]
    }

    /// How many branches are out.
    pub(crate) fn outs(&self) -> u32
        ensures { result ≡ count_by (λ b. b) self.now.call.out }
    {
        self.group.active()
    }

    /// How many branches wait for their start.
    pub(crate) fn waiting(&self) -> usize
        ensures { result ≡ waiting_in self.now }
    {
        self.group.queued()
    }

    /// How a result of a branch that is out is seen.
    pub(crate) fn seen(&self) -> Seen
        ensures { result ≡ (if is_some self.now.call.live then Seen.Counted else Seen.Late) }
    {
        if self.live.is_some() {
            Seen::Counted
        } else {
            Seen::Late
        }
    }

    /// The contexts of its branches, as a result of this one comes at this moment: where an answer leaves others open,
    /// the next branch gets its own, if it has a time, and then that of the one which answered goes. At a refusal
    /// nothing changes.
    pub(crate) fn pass_on<H: ReplyHook + Drop>(
        &self,
        contexts: &mut Contexts<H>,
        branch: u32,
        outcome: &Outcome,
        moment: u64,
    ) -> Result<(), AllocError>
        requires known { is_some self.now.call.live ≡ true → is_life self.now.id contexts.old.standing.calls ≡ true }
        requires moment { moment ≤ 2 ^ 62 }
        ensures ok { OnOk result (contexts.new.standing ≡ passed_on moment branch outcome.now self.now contexts.old.standing) }
        ensures err { OnErr result (contexts.new.standing ≡ contexts.old.standing) }
        ensures live { OnErr result (is_some self.now.call.live ≡ true) }
        ensures stocks { contexts.new.stocks ≡ contexts.old.stocks }
    {
        let (Some(live), Outcome::Answer(_)) = (&self.live, outcome) else {
            return Ok(());
        };
        if live.is_last_answer() {
            return Ok(());
        }
        let (next, deadline) = live.next(moment);
        start_branch(contexts, &self.id, next, deadline, moment)?;
        contexts.finish(&self.id, branch);
        Ok(())
    }

    /// While it can be decided, its branches that have not started wait in declared order, and are not out. It does
    /// nothing.
    pub(crate) fn going_law(&self)
        ensures { (l : Going) → self.now.call.live ≡ Some l → GoesOn self.now.id self.now.call.out l }
    {
        let _ = &self.live;
    }

    /// A result of a branch that is out, at this moment. It needs no memory.
    pub(crate) fn take_result(&mut self, branch: u32, outcome: Outcome, moment: u64) -> AfterResult
        requires out { has_out self.old.call branch ≡ true }
        requires moment { moment ≤ 2 ^ 62 }
        ensures { IsStep moment self.old self.new result.decided result.next (result_on moment branch outcome (slice_set self.old.call.out branch false) self.old.call.live) }
    {
        let live = self.live.take();
        self.out[branch as usize] = false;
        let Some(mut live) = live else {
            // by hand: one call, where a drop at the return is a match over all that an outcome can be
            drop(outcome);
            // none waits any more
            return AfterResult {
                decided: None,
                next: self.group.done(Err(())).next,
            };
        };
        match outcome {
            Outcome::Fail(error) => {
                self.group.clear_queue();
                let next = self.group.done(Err(())).next;
                AfterResult {
                    decided: Some(live.end(CallEvent::Failed(branch, error))),
                    next,
                }
            }
            Outcome::Answer(body) => {
                let next = self.group.done(Ok(())).next;
                live.start(&next, moment);
                let answer = CallEvent::Answer(branch, body);
                if live.is_last_answer() {
                    return AfterResult {
                        decided: Some(live.end(answer)),
                        next,
                    };
                }
                mark_out(&mut self.out, &next);
                live.keep(answer);
                self.live = Some(live);
                AfterResult {
                    decided: None,
                    next,
                }
            }
        }
    }

    /// A branch comes back, if it is out, of a call that can't be decided any more.
    pub(crate) fn give_back(&mut self, branch: u32)
        requires { self.old.call.live ≡ Nothing }
        ensures { self.new ≡ back_kept branch self.old }
    {
        if !self.is_out(branch) {
            return;
        }
        self.out[branch as usize] = false;
        self.group.done(Err(()));
    }

    /// What a log tells of its request, while it can be decided.
    pub(crate) fn label(&self) -> RequestLabel {
        match &self.live {
            Some(live) => RequestLabel::of_call(&live.asked.request_id),
            None => RequestLabel::Nothing,
        }
    }

    /// The call's id.
    pub(crate) fn id(&self) -> CallId
        ensures { result ≡ self.now.id }
    {
        self.id
    }

    /// Ends the call by this event, and makes its reply.
    pub(crate) fn end<H: ReplyHook + Drop>(
        &mut self,
        alloc: Global,
        contexts: &mut Contexts<H>,
        event: CallEvent,
    ) -> Result<Reply, AllocError>
        requires known { is_life self.old.id contexts.old.standing.calls ≡ true }
        requires live { is_some self.old.call.live ≡ true }
        ensures given { self.new ≡ given_up self.old }
        ensures made { IfOk result (λ reply. option_map (reply_with self.old.id) (ends_with (Some event) self.old.call.out self.old.call.live).reply ≡ Some reply) }
        ensures goes { LetsGo self.old.id result contexts.old contexts.new }
    {
        let Some(live) = self.live.take() else {
            unreachable!();
        };
        self.group.clear_queue();
        let label = RequestLabel::of_call(&live.asked.request_id);
        reply_to(alloc, contexts, self.id, live.end(event), label)
    }

    /// Gives the call up: it can't be decided any more.
    pub(crate) fn give_up(&mut self)
        ensures { self.new ≡ given_up self.old }
    {
        self.live = None;
        self.group.clear_queue();
    }
}

/// Marks the branch that starts as out.
fn mark_out(out: &mut Vec<bool>, next: &Option<Task>)
    ensures { out.new.items ≡ next_out (option_to_list next.now) out.old.items }
{
    let Some(task) = next else {
        return;
    };
    let index = task.branch as usize;
    if index < out.len() {
        out[index] = true;
    }
}
