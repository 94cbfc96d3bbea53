//! When a loop rests.
ghost use Rattle.gateway_loop.specs.Rests.{AllAskingRest, AllNamed, WaitsForPlace, is_named, is_watched_as, rests_asking};
ghost use Rattle.gateway_theory.specs.Values.{shown};
ghost use Rattle.loop_model.specs.Rest.{RestsKept, RestsTill};
ghost use Rattle.std.specs.Prelude.{◌≡◌, ◌&&◌, ℕ, All, IsFalse, IsTrue, None, Some};

use crate::event_loop::EventLoop;
use crate::limits::{MOST_EXCHANGES, is_not_after};
use crate::names::Names;
use crate::next_turn::NextTurn;
use crate::tokens::is_exchanges;
use branch_asking::Asking;
use gateway_core::{Core, ReplyHook};
use wires::Wire;

impl<H: ReplyHook + Drop, W: Wire + Drop> EventLoop<H, W> {
    /// When the next turn is due, though nothing comes. A loop that may sleep until then rests: nothing is left that it
    /// could do before. It looks at each client and each job that is asked for.
    pub fn next_turn(&mut self) -> NextTurn
        ensures same { self.new ≡ self.old }
        ensures till { (moment : ℕ) → result ≡ NextTurn.At moment → RestsTill (Some moment) self.new }
        ensures for_now { result ≡ NextTurn.Never → RestsTill None self.new }
    {
        let next = self.look();
        self.next = next;
        next
    }

    /// The same, which is not noted.
    fn look(&self) -> NextTurn
        ensures till { (moment : ℕ) → result ≡ NextTurn.At moment → RestsTill (Some moment) self.now }
        ensures for_now { result ≡ NextTurn.Never → RestsTill None self.now }
    {
        let until = self.next_until();
        if !self.ends.is_empty() || !self.rest(until) {
            return NextTurn::AtOnce;
        }
        NextTurn::by(until, self.clients().moment())
    }

    /// The first limit of a call, of a client that lingers, of an exchange, of an address that has to accept, of a
    /// stream that is kept, and of one that waits for its end.
    fn next_until(&self) -> Option<u64> {
        let asking = self.asking.iter();
        let deadlines = self.clients.core().next_deadline().into_iter();
        deadlines
            .chain(asking.filter_map(|asking| first_limit(asking.1)))
            .chain(self.kept.next_until())
            .chain(self.closing.next_until())
            .chain(self.clients.next_until())
            .min()
    }

    /// Whether nothing is to be done before that moment: for no client, for no job that is asked for, and for no stream
    /// that is kept; a job that has no stream waits for its name; a job waits only while all places are taken; and no
    /// deadline lies before it.
    fn rest(&self, until: Option<u64>) -> bool
        ensures { IsTrue result → RestsTill until self.now }
    {
        if self.may_begin() || !is_not_after(until, self.clients.core().next_deadline()) {
            return false;
        }
        if !self.clients.all_rest(until) || !self.all_kept_rest(until) {
            return false;
        }
        self.all_exchanges_rest(until)
    }

    /// Whether a job waits, and there is a place for it.
    fn may_begin(&self) -> bool
        ensures { IsFalse result → WaitsForPlace self.now }
    {
        if self.asking.len() >= MOST_EXCHANGES {
            return false;
        }
        self.clients.core().waiting_jobs() > 0
    }

    /// Whether no stream that is kept is due before that moment. Nothing else is to be done for one.
    fn all_kept_rest(&self, until: Option<u64>) -> bool
        ensures { IsTrue result → All (RestsKept until) self.now.kept }
    {
        self.kept.all_rest(until)
    }

    /// Whether nothing is to be done for any job that is asked for before that moment.
    fn all_exchanges_rest(&self, until: Option<u64>) -> bool
        ensures rests { IsTrue result → AllAskingRest until self.now }
        ensures named { IsTrue result → AllNamed self.now }
    {
        let core = self.clients.core();
        let names = &self.names;
        let mut asking = self.asking.iter();
        asking.all(|asking| rests(core, names, asking.1, until, asking.0))
    }

    /// Whether nothing is to be done for the job in that place before that moment.
    pub(crate) fn exchange_rests(&self, place: usize, until: Option<u64>) -> bool {
        let asking = self.asking.get(place);
        asking.is_none_or(|asking| rests(self.clients.core(), &self.names, asking, until, place))
    }

    /// Whether somebody may not rest to whom nothing came: not all did as it was looked last, or a limit has come
    /// since.
    pub(crate) fn is_restless(&self) -> bool {
        match self.next {
            NextTurn::AtOnce => true,
            NextTurn::At(limit) => limit <= self.clients().moment(),
            NextTurn::Never => false,
        }
    }
}

/// Whether nothing is to be done for the job, in that place, before that moment: where it has no stream, its name is
/// among these.
fn rests<H: ReplyHook + Drop, W: Wire>(
    core: &Core<H>,
    names: &Names,
    asking: &Asking<W>,
    until: Option<u64>,
    place: usize,
) -> bool
    ensures { result ≡ (rests_asking (shown core.now) until place asking.now && is_named names.now asking.now) }
{
    let job = asking.job();
    asking.rests()
        && is_watched(asking, place)
        && is_not_after(until, asking.until())
        && is_not_after(until, job.deadline())
        && core.is_wanted(&job.call())
        && (asking.has_stream() || names.waits_for(job.address()))
}

/// Whether the stream of the job, if it is watched, is watched by the token of that place.
fn is_watched<W: Wire>(asking: &Asking<W>, place: usize) -> bool
    ensures { result ≡ is_watched_as place asking.now.attempt.watched }
{
    match asking.watched() {
        Some((token, _for_writes)) => is_exchanges(token, place),
        None => true,
    }
}

/// The first limit of the job: its deadline, or until when its stream has to take a byte.
fn first_limit<W: Wire>(asking: &Asking<W>) -> Option<u64> {
    let limits = asking.until().into_iter();
    limits.chain(asking.job().deadline()).min()
}
