ghost use Rattle.gateway_loop.specs.Loop.{Admits, Goes};
ghost use Rattle.std.specs.List.{Contains};
ghost use Rattle.std.specs.Prelude.{◌≡◌, ◌∷◌, [], IfOk, take};

use crate::comings::LookedUp;
use crate::event_loop::EventLoop;
use crate::limits::{MOST_ADDRESSES, MOST_EXCHANGES};
use branch_asking::{BranchEnd, Network, Progress};
use branch_exchange::Loss;
use gateway_core::{CallId, ReplyHook};
use slab::Slab;
use std::alloc::{AllocError, Global};
use std::collections::VecDeque;
use std::io::ErrorKind;
use std::net::SocketAddr;
use wires::Wire;

#[tactic(auto, using(crate::proofs::AskLemmas::going))]
impl<H: ReplyHook + Drop, W: Wire + Drop> EventLoop<H, W> {
    /// Begins to ask for jobs while there are some, and places for them, and at most for so many. Answers for how many.
    pub(crate) fn start_jobs<N: Network<W>>(&mut self, net: &mut N, most: u32) -> u32
        ensures goes { Goes (N.value net.old) (N.value net.new) self.old self.new }
    {
        for started in 0..most {
            self.make_room(net);
            let Some(place) = self.begin() else {
                return started;
            };
            self.start(net, place);
        }
        most
    }

    /// Begins the exchange in that place, which is new. One that nobody waits for, or for which there is no memory, is
    /// over at once.
    fn start<N: Network<W>>(&mut self, net: &mut N, place: usize)
        ensures goes { Goes (N.value net.old) (N.value net.new) self.old self.new }
    {
        let is_told = self.unasked.take_first();
        let Some(client) = self.client_of(place) else {
            return self.drop_new(net, place, is_told);
        };
        if !self.clients.enlist(client, place) {
            return self.lose(net, place, None);
        }
        if self.is_over(place) {
            return self.end(net, place);
        }
        if self.reuse_any(net, place) {
            self.begin_over(net, place);
        } else if self.has_address(place) {
            self.try_next(net, place, Loss::NoAddress);
        } else {
            self.look_up(net, place);
        }
    }

    /// The exchange in that place goes over a stream that was kept: it writes what it can, and is watched.
    fn begin_over<N: Network<W>>(&mut self, net: &mut N, place: usize)
        ensures goes { Goes (N.value net.old) (N.value net.new) self.old self.new }
    {
        match self.step(place) {
            Progress::Ended => self.end(net, place),
            Progress::Refused(kind) => self.try_next(net, place, Loss::Write(kind)),
            Progress::Waits | Progress::More => self.watch(net, place),
        }
    }

    /// The new exchange in that place is lost before anything else knows of it: nobody waits for it any more, and its
    /// backend was never asked. That is told, if it was not yet.
    fn drop_new<N: Network<W>>(&mut self, net: &mut N, place: usize, is_told: bool)
        ensures goes { Goes (N.value net.old) (N.value net.new) self.old self.new }
    {
        self.note_loss(place, Some(Loss::NotWanted));
        let finished = self.record(net, place);
        tell_unasked(net, finished.map(|finished| finished.0), is_told);
    }

    /// Has the address of the exchange in that place looked up.
    pub(crate) fn look_up<N: Network<W>>(&mut self, net: &mut N, place: usize)
        ensures goes { Goes (N.value net.old) (N.value net.new) self.old self.new }
    {
        let Some(asking) = self.asking.get(place) else {
            return self.lose(net, place, Some(Loss::NoAddress));
        };
        match self.names.wait(net, asking.job().address(), place) {
            Ok(Some(number)) => self.set_waits(place, Some(number)),
            Ok(None) => self.lose(net, place, Some(Loss::NoAddress)),
            Err(_) => self.lose(net, place, None),
        }
    }

    /// Takes the names that were looked up.
    pub(crate) fn take_found<N: Network<W>>(&mut self, net: &mut N, found: &mut VecDeque<LookedUp>)
        ensures goes { Admits 0 found.old.items (N.value net.old) (N.value net.new) self.old self.new }
        ensures taken { found.new.items ≡ [] }
    {
        while let Some(looked_up) = found.pop_front() {
            self.take_name(net, &looked_up);
        }
    }

    /// Takes a name that was looked up.
    fn take_name<N: Network<W>>(&mut self, net: &mut N, looked_up: &LookedUp)
        ensures goes { Admits 0 (looked_up.now ∷ []) (N.value net.old) (N.value net.new) self.old self.new }
    {
        if let Some(places) = self.note_found(looked_up) {
            self.stop_waits(&places);
            self.go_all(net, &places, looked_up);
        }
    }

    /// The name of the exchanges in these places was looked up.
    fn go_all<N: Network<W>>(&mut self, net: &mut N, places: &Slab<usize>, looked_up: &LookedUp)
        requires { Contains self.old.looked_up looked_up.now }
        ensures goes { Goes (N.value net.old) (N.value net.new) self.old self.new }
    {
        for (_, place) in places.iter() {
            self.go_to(net, *place, looked_up);
        }
    }

    /// The name of the exchange in that place was looked up.
    fn go_to<N: Network<W>>(&mut self, net: &mut N, place: usize, looked_up: &LookedUp)
        requires { Contains self.old.looked_up looked_up.now }
        ensures goes { Goes (N.value net.old) (N.value net.new) self.old self.new }
    {
        match first_of(self.alloc, looked_up.addresses()) {
            Ok(first) => {
                self.find(place, looked_up, first);
                self.try_next(net, place, Loss::NoAddress);
            }
            Err(_) => self.lose(net, place, None),
        }
    }

    /// Connects the exchange in that place to the next of its addresses that does not refuse at once, and writes its
    /// request. Where there is none, it is lost by what is told.
    pub(crate) fn try_next<N: Network<W>>(&mut self, net: &mut N, place: usize, loss: Loss)
        ensures goes { Goes (N.value net.old) (N.value net.new) self.old self.new }
    {
        let mut loss = loss;
        for _address in 0..MOST_ADDRESSES {
            if !self.connect(net, place) {
                break;
            }
            match self.step(place) {
                Progress::Refused(kind) => loss = Loss::Write(kind),
                Progress::Ended => return self.end(net, place),
                Progress::Waits | Progress::More => return self.watch(net, place),
            }
        }
        self.lose(net, place, Some(loss));
    }

    /// Watches the new stream of the exchange in that place, and sets its time.
    fn watch<N: Network<W>>(&mut self, net: &mut N, place: usize)
        ensures goes { Goes (N.value net.old) (N.value net.new) self.old self.new }
    {
        if !self.watch_stream(net, place) {
            return self.lose(net, place, Some(Loss::NotWatched));
        }
        let until = self.attempt_until(place);
        self.set_until(place, until);
    }

    /// Where the time of the exchange in that place is over, it is the next address's turn, or it is lost.
    fn time_out<N: Network<W>>(&mut self, net: &mut N, place: usize)
        ensures goes { Goes (N.value net.old) (N.value net.new) self.old self.new }
    {
        if self.is_late(place) {
            let loss = self.loss_at_deadline(place);
            self.lose(net, place, Some(loss));
        } else if self.is_overdue(place) {
            self.try_next(net, place, Loss::Write(ErrorKind::TimedOut));
        }
    }

    /// Writes and reads the stream of the exchange in that place, and sees to its time. It is given up where nobody
    /// waits for it.
    pub(crate) fn serve_exchange<N: Network<W>>(&mut self, net: &mut N, place: usize)
        ensures goes { Goes (N.value net.old) (N.value net.new) self.old self.new }
    {
        if !self.is_wanted(place) {
            return self.give_up(net, place);
        }
        match self.step(place) {
            Progress::Waits | Progress::More => self.time_out(net, place),
            Progress::Refused(kind) => self.try_next(net, place, Loss::Write(kind)),
            Progress::Ended => self.end(net, place),
        }
    }

    /// The exchange in that place is over: what came of it is recorded, and what that decides is seen to.
    pub(crate) fn end<N: Network<W>>(&mut self, net: &mut N, place: usize)
        ensures goes { Goes (N.value net.old) (N.value net.new) self.old self.new }
    {
        // a later moment comes first
        self.tick(net);
        let Some((client, call)) = self.finish(net, place) else {
            return;
        };
        self.note(client);
        if !self.clients().core().is_wanted(&call) {
            self.give_up_unwanted(net, client);
        }
    }

    /// The exchange in that place is over, and lost by this if it had not ended; None for want of memory.
    pub(crate) fn lose<N: Network<W>>(&mut self, net: &mut N, place: usize, loss: Option<Loss>)
        ensures goes { Goes (N.value net.old) (N.value net.new) self.old self.new }
    {
        self.note_loss(place, loss);
        self.end(net, place);
    }

    /// Frees all that the exchange in that place has, and records what came of it: the place of its client, and its
    /// call.
    pub(crate) fn finish<N: Network<W>>(
        &mut self,
        net: &mut N,
        place: usize,
    ) -> Option<(usize, CallId)>
        ensures goes { Goes (N.value net.old) (N.value net.new) self.old self.new }
    {
        let asking = self.asking.get(place)?;
        self.names
            .leave(asking.job().address(), asking.errand().waits);
        let (end, errand) = self.record(net, place)?;
        let client = errand.client?;
        self.clients.forget_exchange(client, place);
        let call = end.job.call();
        self.ends.keep(end);
        Some((client, call))
    }

    /// The connection of a client was closed, which had these exchanges: they are given up.
    pub(crate) fn give_up_all<N: Network<W>>(&mut self, net: &mut N, places: Vec<usize>)
        ensures goes { Goes (N.value net.old) (N.value net.new) self.old self.new }
    {
        self.unasked.note_ended();
        self.give_up_places(net, places);
    }

    /// Gives up these exchanges, for which nobody waits any more.
    fn give_up_places<N: Network<W>>(&mut self, net: &mut N, places: Vec<usize>)
        ensures goes { Goes (N.value net.old) (N.value net.new) self.old self.new }
    {
        for place in places {
            self.give_up(net, place);
        }
    }

    /// Calls of the client in that place may have ended: its exchanges are given up for which nobody waits any more.
    pub(crate) fn give_up_unwanted<N: Network<W>>(&mut self, net: &mut N, client: usize)
        ensures goes { Goes (N.value net.old) (N.value net.new) self.old self.new }
    {
        self.unasked.note_ended();
        self.give_up_each(net, client);
    }

    /// Gives up the exchanges of the client in that place for which nobody waits any more.
    fn give_up_each<N: Network<W>>(&mut self, net: &mut N, client: usize)
        ensures goes { Goes (N.value net.old) (N.value net.new) self.old self.new }
    {
        let mut number = 0usize;
        for _exchange in 0..MOST_EXCHANGES {
            let Some(place) = self.clients().exchange_of(client, number) else {
                return;
            };
            if self.is_wanted(place) {
                number = number.saturating_add(1);
            } else {
                self.give_up(net, place);
            }
        }
    }

    /// Gives up the exchange in that place: nobody waits for it any more.
    fn give_up<N: Network<W>>(&mut self, net: &mut N, place: usize)
        ensures goes { Goes (N.value net.old) (N.value net.new) self.old self.new }
    {
        // where its own time or its call's ended the call, that is why
        let loss = if self.is_late(place) {
            self.loss_at_deadline(place)
        } else {
            Loss::NotWanted
        };
        self.note_loss(place, Some(loss));
        let _ended = self.finish(net, place);
    }
}

/// Tells that the backend of a branch is not asked, unless that is told already.
fn tell_unasked<W: Wire, N: Network<W>>(net: &mut N, end: Option<BranchEnd>, is_told: bool)
    ensures { N.value net.new ≡ N.value net.old }
{
    match end {
        Some(end) if !is_told => net.tell_unasked(&end.job),
        _ => {}
    }
}

/// The first of the addresses.
fn first_of(alloc: Global, addresses: &[SocketAddr]) -> Result<VecDeque<SocketAddr>, AllocError>
    ensures { IfOk result (λ first. first.items ≡ take 32 addresses.now) }
{
    let some = &addresses[..addresses.len().min(MOST_ADDRESSES)];
    let mut first = VecDeque::with_capacity(alloc, some.len())?;
    for address in some {
        first.push_back(*address)?;
    }
    Ok(first)
}
