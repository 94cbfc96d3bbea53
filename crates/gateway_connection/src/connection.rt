//! A connection, and what can be asked of it.
mod ending;
mod entering;
mod results;
mod stream;

ghost use Rattle.std.specs.Prelude.{◌≡◌, ◌&&◌, ◌||◌, ◌<◌, ◌≤◌, ◌+◌, ◌==◌, [], false, IfErr, IfOk, IfSome, OnErr, OnOk, None as Nothing, Some as Just, if◌then◌else◌, is_some, length, map, not};
ghost use Rattle.std.specs.List.{count_by};
ghost use Rattle.http_pieces.specs.Reader.{is_over};
ghost use Rattle.http_pieces.specs.Request.{most_requests};
ghost use Rattle.gateway_model.specs.Past.{call_id};
ghost use Rattle.gateway_model.specs.Queue.{front};
ghost use Rattle.gateway_theory.specs.Conn.{is_full};
ghost use Rattle.gateway_theory.specs.Step.{has_out};
ghost use Rattle.gateway_theory.specs.Store.{IsFound, given_up, waiting};
ghost use Rattle.gateway_theory.specs.Values.{are_all_there, call_at};
ghost use Rattle.gateway_theory.specs.Held.{Holds, TakesReply, broken_held, closed_held, has_out_in, hears, is_gone, new_held, next_held, replied};
ghost use Rattle.gateway_connection.specs.Ends.{IsEmptyAt};
ghost use Rattle.gateway_connection.specs.Lent.{LeavesRest};
ghost use Rattle.gateway_connection.specs.Linked.{none_over};
ghost use Rattle.gateway_connection.specs.OwnContexts.{IsTied};

use crate::jobs::JobQueue;
use crate::kept::Kept;
use crate::shared::Shared;
use gateway_model::{CallId, ConnId};
use gateway_replies::{Reply, ReplyHook};
use http_pieces::{Reader, State};
use std::alloc::Global;
use std::collections::VecDeque;
use std::marker::Model;

/// Undecided calls that a connection may have.
const MOST_CALLS: usize = 8;

/// A connection that is open; or one that is closed, of whose calls a branch is still out.
pub struct Connection {
    pub(crate) number: u64,
    /// How far its stream was read.
    pub(crate) reader: Reader,
    /// How many of its replies were taken, and a slot for each request behind them.
    pub(crate) taken: u64,
    pub(crate) slots: VecDeque<Option<Reply>>,
    /// By request: those that can be decided, and those of which a branch is out.
    pub(crate) calls: Vec<Kept>,
    /// Memory was refused in a step of it.
    pub(crate) broken: bool,
    /// Its peer hung up.
    pub(crate) hung_up: bool,
    pub(crate) closed: bool,
}

// by hand, so that a drop is one call, where a derived one is written out at each return
impl Drop for Connection {
    fn drop(self) {
        let Connection {
            number: _,
            reader: _,
            taken: _,
            slots: _,
            calls: _,
            broken: _,
            hung_up: _,
            closed: _,
        } = self;
    }
}

impl Model for Connection {
    ghost use Rattle.gateway_theory.specs.Conn.{AreInPlace};
    ghost use Rattle.gateway_theory.specs.Held.{Holds};
    ghost use Rattle.gateway_theory.specs.Values.{HeldConnection};
    ghost use Rattle.gateway_connection.specs.Holds.{held_by};

    ghost Value = { HeldConnection };

    ghost view = { λ c. held_by c.number c.taken c.slots.items c.calls.items c.broken c.closed c.hung_up c.reader };

    ghost invariant = { λ c. AreInPlace c.number c.taken c.slots.items
        × Holds (held_by c.number c.taken c.slots.items c.calls.items c.broken c.closed c.hung_up c.reader) };
}

impl Connection {
    /// A connection that no request has come on.
    pub fn new(alloc: Global, number: u64) -> Connection
        ensures { result ≡ new_held number }
    {
        Connection {
            number,
            reader: Reader::new(alloc),
            taken: 0,
            slots: VecDeque::new(alloc),
            calls: Vec::new(alloc),
            broken: false,
            hung_up: false,
            closed: false,
        }
    }

    /// Closes it: its calls are given up, and what it had not handed out is dropped. Only results still come to it.
    pub fn close<H: ReplyHook + Drop>(&mut self, shared: &mut Shared<H>)
        requires { waiting self.old.calls ≤ shared.old.jobs.waiting }
        ensures closed { self.new ≡ closed_held self.old }
        ensures tied { IsTied none_over self.new shared.new.contexts }
        ensures rest { LeavesRest [] self.old self.new shared.old shared.new }
        ensures begun { shared.new.begun ≡ shared.old.begun }
    {
        shared.contexts.close(self.number);
        give_up(&mut self.calls, &mut shared.jobs);
        self.reader = Reader::new(shared.alloc);
        self.slots = VecDeque::new(shared.alloc);
        self.broken = false;
        self.closed = true;
    }

    /// Memory was refused in a step of it: it breaks, and its calls can't be decided any more.
    pub(crate) fn break_now<H: ReplyHook + Drop>(&mut self, shared: &mut Shared<H>)
        requires { waiting self.old.calls ≤ shared.old.jobs.waiting }
        ensures broken { self.new ≡ broken_held self.old }
        ensures tied { IsTied none_over self.new shared.new.contexts }
        ensures rest { LeavesRest [] self.old self.new shared.old shared.new }
        ensures begun { shared.new.begun ≡ shared.old.begun }
    {
        shared.contexts.close(self.number);
        give_up(&mut self.calls, &mut shared.jobs);
        self.broken = true;
    }

    /// Hands out the first reply, if it is there.
    pub fn take_reply(&mut self) -> Option<Reply>
        ensures { TakesReply self.old self.new result }
    {
        match self.slots.front() {
            Some(Some(_)) => {
                self.taken += 1;
                self.slots.pop_front().flatten()
            }
            _ => None,
        }
    }

    /// Fills the slot of the reply's request, where it is empty.
    pub(crate) fn fill(&mut self, reply: Reply)
        requires { reply.id.conn ≡ self.old.number }
        ensures { self.new ≡ replied reply.id.request (Just reply.entry) self.old }
    {
        let Some(index) = self.empty_slot(reply.id().request) else {
            return;
        };
        self.slots[index] = Some(reply);
    }

    /// Where the slot of that request stands, if it is empty.
    fn empty_slot(&self, request: u64) -> Option<usize>
        ensures { IsEmptyAt request self.now result }
    {
        if request < self.taken {
            return None;
        }
        let index = (request - self.taken) as usize;
        if index < self.slots.len() && self.slots[index].is_none() {
            return Some(index);
        }
        None
    }

    /// What it keeps of its calls and slots. It does nothing.
    pub(crate) fn held_law(&self)
        ensures { Holds self.now }
    {
        let _ = &self.reader;
    }

    /// Whether memory was refused in a step of it.
    pub fn is_broken(&self) -> bool
        ensures { result ≡ self.now.broken }
    {
        self.broken
    }

    /// Whether it is closed.
    pub fn is_closed(&self) -> bool
        ensures { result ≡ self.now.closed }
    {
        self.closed
    }

    /// Whether it is closed, and nothing comes back to it any more.
    pub fn is_gone(&self) -> bool
        ensures { result ≡ is_gone self.now }
    {
        self.closed && !self.is_any_out()
    }

    /// Whether a branch of a call of it is out.
    fn is_any_out(&self) -> bool
        ensures { result ≡ has_out_in self.now }
    {
        for index in 0..self.calls.len() {
            if self.calls[index].is_any_out() {
                return true;
            }
        }
        false
    }

    /// Whether pieces of its stream are taken.
    pub(crate) fn is_listening(&self) -> bool
        ensures { result ≡ hears self.now }
    {
        !self.closed && !self.broken && !self.hung_up
    }

    /// Whether nothing more comes of it: it is broken, or brings nothing more and no call of it is undecided.
    pub fn is_ended(&self) -> bool
        ensures { result ≡ (self.now.broken || ((is_over self.now.reader.reading || self.now.hung_up) && are_all_there self.now.slots)) }
    {
        self.broken || ((self.is_over() || self.hung_up) && self.is_idle())
    }

    /// Whether nothing more is read of its stream.
    pub(crate) fn is_over(&self) -> bool
        ensures { result ≡ is_over self.now.reader.reading }
    {
        matches!(self.reader.state(), State::Refused(_) | State::Ended)
    }

    /// How many of its replies can be taken: those before the first that is not there.
    pub fn untaken(&self) -> usize
        ensures { result ≡ length (front self.now.slots) }
    {
        for index in 0..self.slots.len() {
            if self.slots[index].is_none() {
                return index;
            }
        }
        self.slots.len()
    }

    /// Whether each of its requests has its reply.
    pub fn is_idle(&self) -> bool
        ensures { result ≡ are_all_there self.now.slots }
    {
        self.untaken() == self.slots.len()
    }

    /// Whether as many calls of it are undecided as may be.
    pub(crate) fn is_full(&self) -> bool
        ensures { result ≡ is_full self.now.slots }
    {
        let mut undecided = 0;
        for index in 0..self.slots.len() {
            if self.slots[index].is_none() {
                undecided += 1;
            }
        }
        undecided >= MOST_CALLS
    }

    /// The id of its next request.
    pub fn next_id(&self) -> CallId
        ensures { result ≡ next_held self.now }
    {
        CallId {
            conn: ConnId::of(self.number),
            request: self.taken + self.slots.len() as u64,
        }
    }

    /// How many branches of the call of that request are out.
    pub fn branches_out(&self, request: u64) -> u32
        ensures { result ≡ count_by (λ b. b) (call_at (call_id self.now.number request) self.now.calls).out }
    {
        match self.find(request) {
            Some(index) => self.calls[index].outs(),
            None => 0,
        }
    }

    /// Whether the call of that request can still be decided.
    pub fn is_live(&self, request: u64) -> bool
        ensures { result ≡ is_some (call_at (call_id self.now.number request) self.now.calls).live }
    {
        match self.find(request) {
            Some(index) => self.calls[index].is_live(),
            None => false,
        }
    }

    /// Where the call of that request stands, if it is kept.
    pub(crate) fn find(&self, request: u64) -> Option<usize>
        ensures { IsFound (call_id self.now.number request) self.now.calls result }
    {
        for index in 0..self.calls.len() {
            if self.calls[index].id().request == request {
                return Some(index);
            }
        }
        None
    }
}

/// Gives up these calls: none of their branches waits any more.
fn give_up(calls: &mut Vec<Kept>, jobs: &mut JobQueue)
    requires { waiting calls.old.items ≤ jobs.old.waiting }
    ensures given { calls.new.items ≡ map given_up calls.old.items }
    ensures jobs { jobs.new.jobs ≡ jobs.old.jobs }
    ensures waits { jobs.new.waiting + waiting calls.old.items ≡ jobs.old.waiting + waiting calls.new.items }
{
    for index in 0..calls.len() {
        jobs.release(calls[index].waiting());
        calls[index].give_up();
    }
}
