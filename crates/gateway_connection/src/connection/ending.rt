//! Calls of a connection that end by a moment, a hang-up or the drain.
ghost use Rattle.std.specs.Prelude.{[], ◌≡◌, ◌<◌, ◌≤◌, All, OnErr, OnOk, is_some, length, true};
ghost use Rattle.gateway_replies.specs.Contexts.{is_life};
ghost use Rattle.gateway_theory.specs.Replies.{ReplyValue};
ghost use Rattle.gateway_theory.specs.Store.{kept_at, waiting};
ghost use Rattle.gateway_connection.specs.Ends.{EndsBy, EndsOne, FailsOne, ending_of, filled_by};
ghost use Rattle.gateway_connection.specs.Lent.{LeavesRest, MayStep};
ghost use Rattle.gateway_connection.specs.Linked.{IsNow, none_over, over_by};
ghost use Rattle.gateway_connection.specs.OwnContexts.{IsTied};

use crate::connection::Connection;
use crate::shared::Shared;
use gateway_replies::{Reply, ReplyHook};
use gateway_theory::Trigger;
use std::alloc::AllocError;

impl Connection {
    /// Its calls end whose contexts this has ended: their replies go into their slots once all are made. True where
    /// memory was refused to one: then it breaks.
    pub fn end_calls<H: ReplyHook + Drop>(
        &mut self,
        shared: &mut Shared<H>,
        trigger: &Trigger,
    ) -> bool
        requires now { IsNow trigger.now shared.old.moment }
        requires may { MayStep (over_by trigger.now) self.old shared.old }
        ensures ends { EndsBy trigger.now result self.old self.new }
        ensures tied { IsTied none_over self.new shared.new.contexts }
        ensures rest { LeavesRest [] self.old self.new shared.old shared.new }
        ensures begun { shared.new.begun ≡ shared.old.begun }
    {
        // the clauses alone look at what ended them
        let _ = trigger;
        self.held_law();
        // what one that broke left
        shared.made.clear();
        for index in 0..self.calls.len() {
            shared.contexts.apart_law();
            if self.end_one(shared, index).is_err() {
                self.break_now(shared);
                return true;
            }
        }
        self.fill_all(&mut shared.made);
        false
    }

    /// The call at that place ends, if its context has ended, and its reply is made.
    fn end_one<H: ReplyHook + Drop>(
        &mut self,
        shared: &mut Shared<H>,
        index: usize,
    ) -> Result<(), AllocError>
        requires there { index < length self.old.calls }
        requires known { is_some (kept_at index self.old.calls).call.live ≡ true
            → is_life (kept_at index self.old.calls).id shared.old.contexts.standing.calls ≡ true }
        requires waits { waiting self.old.calls ≤ shared.old.jobs.waiting }
        ensures ok { OnOk result (EndsOne index (ending_of index self.old shared.old) self.old self.new shared.old shared.new) }
        ensures err { OnErr result (FailsOne (ending_of index self.old shared.old) self.old self.new shared.old shared.new) }
    {
        let call = &self.calls[index];
        if !call.is_live() {
            return Ok(());
        }
        let id = call.id();
        let Some(event) = shared.contexts.ending(&id, shared.moment) else {
            return Ok(());
        };
        if shared.made.reserve(1).is_err() {
            // by hand: one call, where a drop at a `?` is a match over all that an event can be
            drop(event);
            return Err(AllocError);
        }
        let call = &mut self.calls[index];
        shared.jobs.release(call.waiting());
        let reply = call.end(shared.alloc, &mut shared.contexts, event)?;
        shared.made.push_reserved(reply);
        Ok(())
    }

    /// Puts replies into their slots.
    fn fill_all(&mut self, made: &mut Vec<Reply>)
        requires { All (λ (r : ReplyValue). r.id.conn ≡ self.old.number) made.old.items }
        ensures { self.new ≡ filled_by made.old.items self.old }
    {
        while let Some(reply) = made.pop() {
            self.fill(reply);
        }
    }
}
