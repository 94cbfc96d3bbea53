ghost use Rattle.gateway_loop.specs.Loop.{Goes};
ghost use Rattle.std.specs.Prelude.{◌≡◌};

use crate::event_loop::EventLoop;
use branch_asking::Network;
use gateway_core::ReplyHook;
use std::alloc::Global;
use std::collections::VecDeque;
use std::mem;
use wires::Wire;

/// Which of the jobs that wait for a place are told already, since their calls have ended. No law speaks of it.
#[derive(Drop)]
pub(crate) struct Unasked {
    // of the jobs in their order, as far as some were told
    told: VecDeque<bool>,
    // whether calls may have ended since the jobs were looked at
    is_stale: bool,
}

impl Unasked {
    /// None is told.
    pub(crate) fn new(alloc: Global) -> Unasked {
        Unasked {
            told: VecDeque::new(alloc),
            is_stale: false,
        }
    }

    /// Calls may have ended.
    pub(crate) fn note_ended(&mut self) {
        self.is_stale = true;
    }

    /// Whether calls may have ended since this was asked.
    fn take_stale(&mut self) -> bool {
        mem::replace(&mut self.is_stale, false)
    }

    /// The first of the jobs was taken. Answers whether it is told already.
    pub(crate) fn take_first(&mut self) -> bool {
        self.told.pop_front().unwrap_or(false)
    }

    /// The job in that place of the order is to be told. False where it is told already; and for want of memory, so
    /// that it is told once it is taken.
    fn note(&mut self, place: usize) -> bool {
        for _job in self.told.len()..place.saturating_add(1) {
            if self.told.push_back(false).is_err() {
                return false;
            }
        }
        match self.told.get_mut(place) {
            Some(told) => !mem::replace(told, true),
            None => false,
        }
    }
}

#[tactic(auto, using(crate::proofs::AskLemmas::going))]
impl<H: ReplyHook + Drop, W: Wire + Drop> EventLoop<H, W> {
    /// Tells the branches that wait for a place though their calls have ended, before the replies to these.
    pub(crate) fn tell_unasked<N: Network<W>>(&mut self, net: &mut N)
        ensures goes { Goes (N.value net.old) (N.value net.new) self.old self.new }
    {
        if self.unasked.take_stale() {
            self.tell_waiting(net);
        }
    }

    /// Tells them whether or not calls have ended.
    fn tell_waiting<N: Network<W>>(&mut self, net: &mut N)
        ensures same { self.new ≡ self.old }
        ensures net { N.value net.new ≡ N.value net.old }
    {
        for place in 0..self.clients().core().waiting_jobs() {
            self.tell_if_unasked(net, place);
        }
    }

    /// Tells the branch whose job waits in that place of the order, if its call has ended and it is not told yet.
    fn tell_if_unasked<N: Network<W>>(&mut self, net: &mut N, place: usize)
        ensures same { self.new ≡ self.old }
        ensures net { N.value net.new ≡ N.value net.old }
    {
        let core = self.clients.core();
        let Some(job) = core.waiting_job(place) else {
            return;
        };
        if !core.is_wanted(&job.call()) && self.unasked.note(place) {
            net.tell_unasked(job);
        }
    }
}
