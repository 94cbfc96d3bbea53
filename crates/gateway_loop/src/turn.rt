ghost use Rattle.gateway_loop.specs.Loop.{Goes, IsToldBeside};
ghost use Rattle.loop_model.specs.Accounts.{AccountsOn};
ghost use Rattle.loop_model.specs.Growing.{HasTicked};
ghost use Rattle.loop_model.specs.Reports.{tell_all};
ghost use Rattle.loop_model.specs.Whole.{ContinuesLoop};
ghost use Rattle.std.specs.Prelude.{◌≡◌, [], length, true};

use crate::comings::Comings;
use crate::event_loop::EventLoop;
use crate::limits::MOST_STARTS;
use crate::tokens::{Owner, owner_of};
use branch_asking::Network;
use gateway_core::ReplyHook;
use wires::{Ready, Wire};

#[tactic(auto, using(crate::proofs::AskLemmas::going))]
impl<H: ReplyHook + Drop, W: Wire + Drop> EventLoop<H, W> {
    /// One turn: takes what the last wait brought, and does what can be done without waiting. `next_turn` tells when
    /// another is due.
    pub fn turn<N: Network<W>>(&mut self, net: &mut N, comings: &mut Comings<H, W>)
        ensures continues { ContinuesLoop self.old self.new }
        ensures reports { ContinuesLoop (tell_all comings.old.ready.items self.old) self.new }
        ensures accounts { AccountsOn (length comings.old.streams.items) comings.old.found.items (N.value net.old) (N.value net.new) self.old self.new }
        ensures ticks { HasTicked self.old.side self.new.side }
        ensures drained { self.new.side.drained ≡ self.old.side.drained }
        ensures taken { (comings.new.ready.items ≡ []) × (comings.new.streams.items ≡ []) × (comings.new.found.items ≡ []) }
    {
        self.begin_turn();
        self.note_reports(net, comings.ready.as_slice());
        self.tick(net);
        self.admit_all(net, &mut comings.streams);
        self.take_found(net, &mut comings.found);
        self.serve(net, &mut comings.ready);
    }

    /// Serves those of whom the wait told, and all for whom something is left to be done, if there may be some.
    fn serve<N: Network<W>>(&mut self, net: &mut N, ready: &mut Vec<Ready>)
        ensures goes { Goes (N.value net.old) (N.value net.new) self.old self.new }
        ensures taken { ready.new.items ≡ [] }
    {
        self.serve_ready(net, ready);
        if self.is_restless() {
            self.serve_restless(net);
        }
        self.close_due(net);
        self.expire_kept(net);
        self.settle(net);
    }

    /// Hands in the present moment, unless that would change nothing: so calls that are due end before anything that
    /// is seen later.
    pub(crate) fn tick<N: Network<W>>(&mut self, net: &mut N)
        ensures goes { Goes (N.value net.old) (N.value net.new) self.old self.new }
        ensures ticks { HasTicked self.old.side self.new.side }
    {
        if self.clients.tick(net) {
            self.look_at_all(net);
        }
    }

    /// Tells each report to the stream of its token. One that waits for its backend's end is closed by that.
    fn note_reports<N: Network<W>>(&mut self, net: &mut N, reports: &[Ready])
        ensures exact { IsToldBeside (tell_all reports.now self.old) self.new }
        ensures goes { Goes (N.value net.old) (N.value net.new) self.old self.new }
    {
        for ready in reports {
            self.note_ready(net, *ready);
        }
    }

    /// Serves those of whom the wait told, in that order: so what came first comes first.
    fn serve_ready<N: Network<W>>(&mut self, net: &mut N, ready: &mut Vec<Ready>)
        ensures goes { Goes (N.value net.old) (N.value net.new) self.old self.new }
        ensures taken { ready.new.items ≡ [] }
    {
        for ready in ready.drain(..) {
            match owner_of(ready.token) {
                Owner::Client(place) => self.serve_client(net, place),
                Owner::Exchange(place) => self.serve_exchange(net, place),
            }
        }
    }

    /// Serves all for whom something is left to be done.
    fn serve_restless<N: Network<W>>(&mut self, net: &mut N)
        ensures goes { Goes (N.value net.old) (N.value net.new) self.old self.new }
    {
        self.serve_exchanges(net);
        self.serve_clients(net);
    }

    /// Serves each exchange for which something is left to be done.
    fn serve_exchanges<N: Network<W>>(&mut self, net: &mut N)
        ensures goes { Goes (N.value net.old) (N.value net.new) self.old self.new }
    {
        let soon = self.clients().moment().saturating_add(1);
        for place in 0..self.places {
            if !self.exchange_rests(place, Some(soon)) {
                self.serve_exchange(net, place);
            }
        }
    }

    /// Serves each client for whom something is left to be done.
    fn serve_clients<N: Network<W>>(&mut self, net: &mut N)
        ensures goes { Goes (N.value net.old) (N.value net.new) self.old self.new }
    {
        let soon = self.clients().moment().saturating_add(1);
        for place in 0..self.clients().places() {
            if !self.clients().rests(place, Some(soon)) {
                self.serve_client(net, place);
            }
        }
    }

    /// Writes the replies that are there, and begins to ask for the jobs that came, until neither brings anything more.
    /// Replies go first: none waits while others' branches are connected.
    fn settle<N: Network<W>>(&mut self, net: &mut N)
        ensures goes { Goes (N.value net.old) (N.value net.new) self.old self.new }
    {
        let mut left = MOST_STARTS;
        for _round in 0..MOST_STARTS {
            self.tell_unasked(net);
            self.ends.tell(net);
            let has_written = self.write_noted(net);
            let started = self.start_jobs(net, left);
            left = left.saturating_sub(started);
            if started == 0 && !has_written {
                break;
            }
        }
    }

    /// The drain begins: calls that are undecided end, and those that come are refused.
    pub fn drain<N: Network<W>>(&mut self, net: &mut N)
        ensures continues { ContinuesLoop self.old self.new }
        ensures accounts { AccountsOn 0 [] (N.value net.old) (N.value net.new) self.old self.new }
        ensures drained { self.new.side.drained ≡ true }
    {
        self.clients.drain();
        self.ends.drain();
        self.keep_no_more();
        self.close_kept(net);
        self.look_at_all(net);
    }

    /// Something may be there for any client, and nobody may wait for any exchange.
    fn look_at_all<N: Network<W>>(&mut self, net: &mut N)
        ensures goes { Goes (N.value net.old) (N.value net.new) self.old self.new }
    {
        for place in 0..self.clients().places() {
            if self.clients().has_news(place) {
                self.note(place);
            }
            // also where a call ended behind an undecided one, which shows by nothing else
            self.give_up_unwanted(net, place);
        }
    }
}
