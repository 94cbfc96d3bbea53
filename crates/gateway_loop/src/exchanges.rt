ghost use Rattle.std.specs.List.{Contains};
ghost use Rattle.std.specs.Prelude.{◌≡◌, ◌+◌, ◌∷◌, [], IsTrue, count_by, false, is_some, take, true};
ghost use Rattle.gateway_loop.specs.Loop.{Admits, Goes, GoesAlone, IsToldBeside, found_asking};
ghost use Rattle.loop_model.specs.Accounts.{NetworkValue};
ghost use Rattle.loop_model.specs.Whole.{asked_at};
ghost use Rattle.loop_model.specs.Reports.{changed_at, tell, told_asking};

use crate::comings::LookedUp;
use crate::event_loop::EventLoop;
use crate::limits::{ATTEMPT, CLOSING, MOST_EXCHANGES, is_due, places_with};
use crate::login::logs_in;
use crate::tokens::{Owner, exchange_token, owner_of};
use branch_asking::{Asking, BranchEnd, Concluded, Errand, Network, Progress};
use branch_causes::Cause;
use branch_exchange::Loss;
use gateway_core::ReplyHook;
use loop_model::Manner;
use slab::Slab;
use std::collections::VecDeque;
use std::io::ErrorKind;
use std::net::SocketAddr;
use wires::{Ready, Wire};

impl<H: ReplyHook + Drop, W: Wire + Drop> EventLoop<H, W> {
    /// The place of the client for whose call the exchange in that place is, if its answer was wanted as it began.
    pub(crate) fn client_of(&self, place: usize) -> Option<usize> {
        self.asking.get(place)?.errand().client
    }

    /// Whether somebody waits for the exchange in that place.
    pub(crate) fn is_wanted(&self, place: usize) -> bool {
        let core = self.clients.core();
        matches!(self.asking.get(place), Some(asking) if core.is_wanted(&asking.job().call()))
    }

    /// Whether there is no exchange in that place any more, or it is over.
    pub(crate) fn is_over(&self, place: usize) -> bool {
        self.asking.get(place).is_none_or(Asking::is_over)
    }

    /// Whether the deadline has come of the job that is asked for in that place.
    pub(crate) fn is_late(&self, place: usize) -> bool {
        let asking = self.asking.get(place);
        asking.is_some_and(|asking| is_due(asking.job().deadline(), self.clients.moment()))
    }

    /// Whether the time is over that the stream of the exchange in that place had to take a byte.
    pub(crate) fn is_overdue(&self, place: usize) -> bool {
        let asking = self.asking.get(place);
        asking.is_some_and(|asking| is_due(asking.until(), self.clients.moment()))
    }

    /// Why the exchange in that place is lost where that deadline has come: its address has not accepted a connection,
    /// or else.
    pub(crate) fn loss_at_deadline(&self, place: usize) -> Loss {
        match self.asking.get(place) {
            Some(asking) if asking.attempt().is_connecting() => Loss::Write(ErrorKind::TimedOut),
            _ => Loss::Deadline,
        }
    }

    /// Until when the new stream of the exchange in that place has to take a byte. None where no other address follows.
    pub(crate) fn attempt_until(&self, place: usize) -> Option<u64> {
        let asking = self.asking.get(place)?;
        if asking.attempt().is_connected() || !asking.has_others() {
            return None;
        }
        let moment = self.clients.moment();
        let Some(deadline) = asking.job().deadline() else {
            return Some(moment.saturating_add(ATTEMPT));
        };
        // half of the time that is left, and at least a millisecond, if there is one
        let time = (deadline.saturating_sub(moment) / 2).max(1);
        Some(moment.saturating_add(time).min(deadline))
    }

    /// Watches the stream of the exchange in that place. False where it can't be.
    pub(crate) fn watch_stream<N: Network<W>>(&mut self, net: &mut N, place: usize) -> bool
        ensures goes { Goes (N.value net.old) (N.value net.new) self.old self.new }
    {
        let Some(asking) = self.asking.get_mut(place) else {
            return false;
        };
        let is_watched = asking.watch(net, exchange_token(place));
        asking.begun_law();
        is_watched
    }

    /// Takes the next job, which is asked for from now on: its place. None if none waits, or too many are asked for.
    pub(crate) fn begin(&mut self) -> Option<usize>
        ensures goes { GoesAlone self.old self.new }
    {
        if self.asking.len() >= MOST_EXCHANGES || self.asking.reserve(1).is_err() {
            return None;
        }
        let job = self.clients.take_job()?;
        let errand = Errand::new(self.clients.client_of(&job), self.clients.moment());
        let asking = Asking::new(self.alloc, self.manner, job, errand);
        asking.begun_law();
        let place = self.asking.insert_reserved(asking);
        self.places = places_with(self.places, place, self.asking.len());
        Some(place)
    }

    /// The exchange in that place writes what it can, and then reads what it can.
    pub(crate) fn step(&mut self, place: usize) -> Progress
        ensures goes { GoesAlone self.old self.new }
    {
        let Some(asking) = self.asking.get_mut(place) else {
            return Progress::Waits;
        };
        let progress = asking.step();
        asking.begun_law();
        progress
    }

    /// The exchange in that place goes over a stream to the next of its addresses from now on. False where there is
    /// none.
    pub(crate) fn connect<N: Network<W>>(&mut self, net: &mut N, place: usize) -> bool
        ensures goes { Goes (N.value net.old) (N.value net.new) self.old self.new }
    {
        let moment = self.clients.moment();
        let Some(asking) = self.asking.get_mut(place) else {
            return false;
        };
        let connected = asking.connect(net, moment);
        asking.begun_law();
        connected
    }

    /// Whether the address of the exchange in that place is no name. It is to be tried then.
    pub(crate) fn has_address(&mut self, place: usize) -> bool
        ensures goes { GoesAlone self.old self.new }
    {
        let Some(asking) = self.asking.get_mut(place) else {
            return false;
        };
        let has_address = asking.has_address();
        asking.begun_law();
        has_address
    }

    /// This was found for its name: the places of the exchanges that waited for it.
    pub(crate) fn note_found(&mut self, looked_up: &LookedUp) -> Option<Slab<usize>>
        ensures goes { (a : NetworkValue) → Admits 0 (looked_up.now ∷ []) a a self.old self.new }
        ensures there { Contains self.new.looked_up looked_up.now }
    {
        self.looked_up = self.looked_up.and(looked_up, &true);
        self.names.found(looked_up.name())
    }

    /// The first of these addresses, which were found for the name, are to be tried for the exchange in that place.
    pub(crate) fn find(&mut self, place: usize, looked_up: &LookedUp, first: VecDeque<SocketAddr>)
        requires there { Contains self.old.looked_up looked_up.now }
        requires first { first.items ≡ take 32 looked_up.now.addresses }
        ensures exact { self.new ≡ record self.old { asking = changed_at (found_asking looked_up.now.name first.items) place self.old.asking } }
        ensures goes { GoesAlone self.old self.new }
    {
        if let Some(asking) = self.asking.get_mut(place) {
            asking.find(looked_up.name(), first);
            asking.begun_law();
        }
    }

    /// The exchange in that place is over. One that had not ended is lost by this, whatever was read; None for want of
    /// memory.
    pub(crate) fn note_loss(&mut self, place: usize, loss: Option<Loss>)
        ensures goes { GoesAlone self.old self.new }
    {
        if let Some(asking) = self.asking.get_mut(place) {
            asking.lose(loss);
            asking.begun_law();
        }
    }

    /// Records what came of the exchange in that place, which leaves it: that, and what was noted of it. Its stream is
    /// kept, if that is asked for and it may be used again. Else it waits for its backend's end, if its reply came
    /// whole and that end is not known to be there; or it is closed.
    pub(crate) fn record<N: Network<W>>(
        &mut self,
        net: &mut N,
        place: usize,
    ) -> Option<(BranchEnd, Errand)>
        ensures goes { Goes (N.value net.old) (N.value net.new) self.old self.new }
        ensures fewer { is_some (asked_at place self.old.asking) ≡ true → count_by is_some self.old.asking ≡ count_by is_some self.new.asking + 1 }
    {
        let mut asking = self.asking.try_remove(place)?;
        let cause = asking.cause();
        let status = asking.status();
        let came = matches!(cause, Cause::Answer | Cause::Status);
        let Concluded { outcome, is_whole } = asking.conclude(self.alloc);
        let cause = cause.settled(&outcome);
        self.ended = self.ended.and(&asking, &outcome);
        let (job, errand, stream) = asking.into_parts(&outcome);
        self.clients.record(&job, outcome);
        let moment = self.clients.moment();
        let may_keep = may_be_kept(self.manner, is_whole, errand.has_ended, logs_in(&job));
        if let Some(stream) = self.kept.keep(stream, may_keep, job.address(), moment) {
            self.left = self.left.and(&stream, &());
            let waits = came && !errand.has_ended;
            let until = moment.saturating_add(CLOSING);
            let token = exchange_token(place);
            self.closing
                .put(net, stream.into_wire(), waits, token, until);
        }
        let end = BranchEnd {
            job,
            cause,
            status,
            took: moment.saturating_sub(errand.began),
            is_reused: errand.is_reused,
        };
        Some((end, errand))
    }

    /// Closes the streams that have waited long enough for their backends' ends.
    pub(crate) fn close_due<N: Network<W>>(&mut self, net: &mut N)
        ensures goes { Goes (N.value net.old) (N.value net.new) self.old self.new }
    {
        self.closing.expire(net, self.clients.moment());
    }
}

/// Whether a stream may be kept: if streams are, its job had its whole reply, with nothing behind it, its backend is
/// not known to have ended it, and it does not know the stream by who has logged in over it.
fn may_be_kept(manner: Manner, is_whole: bool, has_ended: bool, logs_in: bool) -> bool
    ensures whole { IsTrue result → (manner.keeps ≡ true) × (is_whole ≡ true) }
    ensures open { IsTrue result → has_ended ≡ false }
    ensures nobodys { IsTrue result → logs_in ≡ false }
{
    manner.keeps && is_whole && !has_ended && !logs_in
}

// what else is known of clients and exchanges
impl<H: ReplyHook + Drop, W: Wire + Drop> EventLoop<H, W> {
    /// Something became possible at the stream of whom the token names. One that had the token before, and waits for
    /// its backend's end, is closed if that is there; and so is one that is kept, where something is there to be read.
    pub(crate) fn note_ready<N: Network<W>>(&mut self, net: &mut N, ready: Ready)
        ensures exact { IsToldBeside (tell ready self.old) self.new }
        ensures goes { Goes (N.value net.old) (N.value net.new) self.old self.new }
    {
        let is_ended = self.close_ended(net, ready);
        let is_heard = self.hear_kept(net, ready);
        self.tell_ready(ready, is_ended || is_heard);
    }

    /// Closes the stream that waits for its backend's end under that token, if that is there. Answers whether one did.
    fn close_ended<N: Network<W>>(&mut self, net: &mut N, ready: Ready) -> bool
        ensures rest { self.new ≡ record self.old { closing = self.new.closing } }
        ensures goes { Goes (N.value net.old) (N.value net.new) self.old self.new }
    {
        self.closing.note_ready(net, ready)
    }

    /// Something became possible at the stream of whom the token names; whether that may be told of another's, too,
    /// that had the token before.
    fn tell_ready(&mut self, ready: Ready, is_shared: bool)
        ensures exact { self.new ≡ tell ready self.old }
        ensures goes { GoesAlone self.old self.new }
    {
        match owner_of(ready.token) {
            Owner::Client(place) => self.clients.note_ready(place, ready),
            Owner::Exchange(place) => self.report(place, ready, is_shared),
        }
    }

    /// Something became possible at the stream of the exchange in that place; whether that may be told of another's,
    /// too.
    fn report(&mut self, place: usize, ready: Ready, is_shared: bool)
        ensures exact { self.new ≡ record self.old { asking = changed_at (told_asking ready) place self.old.asking } }
        ensures goes { GoesAlone self.old self.new }
    {
        if let Some(asking) = self.asking.get_mut(place) {
            asking.report(ready, is_shared);
            asking.begun_law();
        }
    }

    /// The stream of the exchange in that place has to take a byte until then, where another address follows.
    pub(crate) fn set_until(&mut self, place: usize, until: Option<u64>)
        ensures goes { GoesAlone self.old self.new }
    {
        if let Some(asking) = self.asking.get_mut(place) {
            asking.set_until(until);
            asking.begun_law();
        }
    }

    /// The exchange in that place waits for its name under this number, or no more.
    pub(crate) fn set_waits(&mut self, place: usize, waits: Option<usize>)
        ensures { self.new ≡ self.old }
    {
        if let Some(asking) = self.asking.get_mut(place) {
            asking.errand_mut().set_waits(waits);
        }
    }

    /// The exchanges in these places wait for their names no more.
    pub(crate) fn stop_waits(&mut self, places: &Slab<usize>)
        ensures { self.new ≡ self.old }
    {
        for (_, place) in places.iter() {
            self.set_waits(*place, None);
        }
    }
}
