ghost use Rattle.std.specs.Prelude.{◌≡◌, ◌<◌, ◌≤◌, ◌+◌, ◌^◌, ◌++◌, ◌∷◌, [], ◌==◌, IfSome, length, option_to_list};
ghost use Rattle.call_plan.specs.Plan.{IsLawful};
ghost use Rattle.gateway_connection.specs.KeptCall.{live_value};
ghost use Rattle.gateway_model.specs.Past.{deadline_from};
ghost use Rattle.gateway_model.specs.Queue.{record_of};
ghost use Rattle.gateway_theory.specs.Step.{deadlines_next};

use crate::task::Task;
use crate::times::deadline_of;
use call_plan::Plan;
use gateway_model::{CallEvent, CallRecord};
use gateway_replies::ArrivedCall;
use std::marker::Model;
use std::sync::Arc;

/// A call that can still be decided.
#[derive(Drop)]
pub struct Live {
    pub(crate) asked: Arc<ArrivedCall>,
    /// The plan again, for the record.
    pub(crate) plan: Arc<Plan>,
    /// Its own events so far, all of them answers, and room for one of each branch.
    pub(crate) events: Vec<CallEvent>,
    /// The deadlines of its branches that have started, and room for one of each branch.
    pub(crate) deadlines: Vec<Option<u64>>,
}

impl Model for Live {
    ghost use Rattle.std.specs.Prelude.{◌≡◌, ◌<◌, ◌≤◌, length};
    ghost use Rattle.std.specs.Vec.{vec_capacity};
    ghost use Rattle.std.specs.Arc.{arc_value};
    ghost use Rattle.gateway_connection.specs.KeptCall.{LiveValue, live_value};
    ghost use Rattle.gateway_model.specs.Past.{ArrivedCall as Asks};

    ghost Value = { LiveValue };

    ghost view = { λ l. live_value (arc_value l.asked) l.events.items l.deadlines.items };

    ghost invariant = { λ l. (arc_value l.plan ≡ (arc_value l.asked).plan) × (length l.events.items < length (arc_value l.plan).branches)
        × (length (arc_value l.plan).branches ≤ vec_capacity l.events) × (length (arc_value l.plan).branches ≤ vec_capacity l.deadlines) };
}

impl Live {
    /// Whether all other branches have answered.
    pub(crate) fn is_last_answer(&self) -> bool
        ensures last { result ≡ (length self.now.events + 1 == length self.now.asked.plan.branches) }
        ensures lawful { IsLawful self.now.asked.plan }
    {
        self.events.len() + 1 == self.plan.branches().len()
    }

    /// Keeps the deadline of the branch that starts at this moment, if one does.
    pub(crate) fn start(&mut self, next: &Option<Task>, moment: u64)
        requires moment { moment ≤ 2 ^ 62 }
        requires room { length self.old.deadlines + length (option_to_list next.now) ≤ length self.old.asked.plan.branches }
        ensures { self.new ≡ live_value self.old.asked self.old.events (self.old.deadlines ++ deadlines_next moment (option_to_list next.now)) }
    {
        if let Some(task) = next {
            self.deadlines.push_reserved(task.deadline(moment));
        }
    }

    /// The branch that starts next, if one waits, and the deadline of its own that it has if it starts at this moment.
    pub(crate) fn next(&self, moment: u64) -> (u32, Option<u64>)
        requires moment { moment ≤ 2 ^ 62 }
        requires few { length self.now.deadlines < 2 ^ 32 }
        ensures branch { result.0 ≡ length self.now.deadlines }
        ensures deadline { result.1 ≡ deadline_from moment self.now.asked.plan (length self.now.deadlines) }
        ensures later { IfSome result.1 (λ at. moment < at) }
    {
        let branch = self.deadlines.len();
        (branch as u32, deadline_of(&self.plan, branch, moment))
    }

    /// Keeps an answer that leaves others open.
    pub(crate) fn keep(&mut self, answer: CallEvent)
        requires { length self.old.events + 1 < length self.old.asked.plan.branches }
        ensures { self.new ≡ live_value self.old.asked (self.old.events ++ answer ∷ []) self.old.deadlines }
    {
        self.events.push_reserved(answer);
    }

    /// The record of the call, which this event decides.
    pub(crate) fn end(self, event: CallEvent) -> CallRecord
        ensures { result ≡ record_of self.asked self.deadlines (self.events ++ event ∷ []) }
    {
        let mut events = self.events;
        events.push_reserved(event);
        CallRecord {
            plan: self.plan,
            start: self.asked.start,
            deadline: self.asked.deadline,
            last: self.asked.request.closes(),
            branch_deadlines: self.deadlines,
            events,
        }
    }
}
