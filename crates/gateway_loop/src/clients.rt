ghost use Rattle.std.specs.Prelude.{◌≡◌, ◌+◌, ◌++◌, ◌∷◌, [], ℕ, List, None, IfOk, IfSome, IsTrue, is_some, option_map, option_to_list, true};
ghost use Rattle.loop_model.specs.Explained.{at};
ghost use Rattle.connect_codec.specs.declared.answer.Outcome.{Outcome};
ghost use Rattle.gateway_loop.specs.Clients.{HandsNothing, IsFresh, IsStill, IsTold, LetsGo, Onward, Starts, TakesIn};
ghost use Rattle.gateway_model.specs.History.{no_history};
ghost use Rattle.gateway_loop.specs.Rests.{AllRest};
ghost use Rattle.loop_model.specs.Growing.{Continues};
ghost use Rattle.loop_model.specs.Histories.{IsExplained};
ghost use Rattle.loop_model.specs.Holding.{Holds};
ghost use Rattle.loop_model.specs.Reports.{changed_at, told_client};
ghost use Rattle.loop_model.specs.Standing.{count_clients, count_lingering};
ghost use Rattle.wires.specs.Turns.{ended_of, given_of, got_of};

use crate::client::{Client, Heard, Written};
use crate::comings::Dealt;
use crate::laws::loop_laws;
use crate::limits::{MOST_CLIENTS, is_due, places_with};
use crate::tokens::client_token;
use branch_asking::Network;
use call_plan::Plans;
use connect_codec::Outcome;
use gateway_core::{Core, Job, ReplyHook};
use http_server::Log;
use slab::Slab;
use std::alloc::{AllocError, Global};
use std::marker::Model;
use wires::{Ready, Wire};

/// A core and its clients, by their places. Whatever is done by its functions, one history explains all that its
/// clients' streams brought and got (`explained_law`).
#[derive(Drop)]
pub(crate) struct Clients<H, W: Wire> {
    alloc: Global,
    core: Core<H>,
    clients: Slab<Client<W>>,
    // so many places have clients, or had some since none was there
    places: usize,
    // the last moment that was handed in
    moment: u64,
    // for proofs: the clients that have gone, the streams that were not taken in, the moments that were told, the
    // results that were handed in, and the jobs that were taken
    gone: Log<Client<W>, bool>,
    unserved: Log<W, bool>,
    told: Log<u64, bool>,
    results: Log<Job, Option<Outcome>>,
    handed: Log<Job, bool>,
    // .. and whether it was told to drain
    drained: bool,
}

impl<H, W: Wire> Model for Clients<H, W> {
    ghost use Rattle.std.specs.Prelude.{map};
    ghost use Rattle.loop_model.specs.Explained.{LoopValue};
    ghost use Rattle.loop_model.specs.Streams.{closed_turns};
    ghost use Rattle.gateway_loop.specs.Clients.{IsServing, loop_value};

    ghost Value = { LoopValue };

    ghost view = { λ l. loop_value l.core l.clients.slots l.gone.items
        (map (λ u. closed_turns (W.peer u.0) (W.turns u.0)) l.unserved.items) l.told.items l.results.items l.handed.items l.drained };

    ghost invariant = { λ l. IsServing l.moment (loop_value l.core l.clients.slots l.gone.items
        (map (λ u. closed_turns (W.peer u.0) (W.turns u.0)) l.unserved.items) l.told.items l.results.items l.handed.items l.drained) };
}

impl<H: ReplyHook + Drop, W: Wire + Drop> Clients<H, W> {
    /// A core that serves these plans, with no client.
    pub(crate) fn new(alloc: Global, plans: Plans) -> Result<Clients<H, W>, AllocError>
        ensures plans { IfOk result (λ l. l.core.plans ≡ plans) }
        ensures starts { IfOk result Starts }
        ensures serves { IfOk result (λ l. (unknown : Outcome) → Holds unknown no_history l) }
    {
        Ok(Clients {
            alloc,
            clients: Slab::with_capacity(alloc, MOST_CLIENTS)?,
            core: Core::new(alloc, plans)?,
            places: 0,
            moment: 0,
            gone: Log::new(),
            unserved: Log::new(),
            told: Log::new(),
            results: Log::new(),
            handed: Log::new(),
            drained: false,
        })
    }

    /// Opens a connection for the stream: the place of its client. Where none can be opened, the stream is closed
    /// without a byte.
    pub(crate) fn open<N: Network<W>>(&mut self, net: &mut N, dealt: Dealt<H, W>) -> Option<usize>
        ensures goes { Onward self.old self.new }
        ensures takes { TakesIn (N.value net.old) (N.value net.new) self.old self.new }
        ensures hands { HandsNothing self.old self.new }
    {
        loop_laws();
        let (wire, stock) = dealt.into_parts();
        if self.clients.reserve(1).is_err() {
            self.turn_away(net, wire);
            return None;
        }
        let Ok(conn) = self.core.open_conn(stock) else {
            self.turn_away(net, wire);
            return None;
        };
        let place = self
            .clients
            .insert_reserved(Client::new(self.alloc, wire, conn));
        self.places = places_with(self.places, place, self.clients.len());
        Some(place)
    }

    /// Closes a stream that is not taken in.
    fn turn_away<N: Network<W>>(&mut self, net: &mut N, wire: W)
        requires { IsFresh (W.peer wire) (given_of (W.turns wire)) (got_of (W.turns wire)) (ended_of (W.turns wire)) }
        ensures goes { Onward self.old self.new }
        ensures takes { TakesIn (N.value net.old) (N.value net.new) self.old self.new }
        ensures hands { HandsNothing self.old self.new }
    {
        loop_laws();
        self.unserved = self.unserved.and(&wire, &true);
        net.close(wire);
    }

    /// Reads the stream of the client in that place once, and hands on what came; of one that lingers it is dropped.
    pub(crate) fn read(&mut self, place: usize) -> Heard
        ensures goes { Onward self.old self.new }
        ensures still { IsStill self.old self.new }
        ensures hands { HandsNothing self.old self.new }
    {
        loop_laws();
        let Some(mut client) = self.clients.try_remove(place) else {
            return Heard::Nothing;
        };
        let heard = client.read(&mut self.core);
        let _place = self.clients.insert_reserved(client);
        heard
    }

    /// Writes what can be written of the replies that are there to the client in that place.
    pub(crate) fn write<N: Network<W>>(&mut self, net: &mut N, place: usize) -> Written
        ensures goes { Onward self.old self.new }
        ensures still { IsStill self.old self.new }
        ensures net { N.value net.new ≡ N.value net.old }
        ensures hands { HandsNothing self.old self.new }
    {
        loop_laws();
        let Some(mut client) = self.clients.try_remove(place) else {
            return Written::All;
        };
        let written = client.write(&mut self.core, net);
        let _place = self.clients.insert_reserved(client);
        written
    }

    /// Closes the connection of the client in that place, which lingers from now on, until then at most: what still
    /// comes is dropped.
    pub(crate) fn leave(&mut self, place: usize, until: u64)
        ensures goes { Onward self.old self.new }
        ensures still { IsStill self.old self.new }
        ensures hands { HandsNothing self.old self.new }
    {
        loop_laws();
        let Some(mut client) = self.clients.try_remove(place) else {
            return;
        };
        self.core.close(client.conn());
        client.linger(until);
        let _place = self.clients.insert_reserved(client);
    }

    /// Closes the stream of the client in that place, and its connection.
    pub(crate) fn let_go<N: Network<W>>(&mut self, net: &mut N, place: usize)
        ensures goes { Onward self.old self.new }
        ensures leaves { LetsGo (N.value net.old) (N.value net.new) self.old self.new }
        ensures fewer { is_some (at place self.old.clients) ≡ true → count_clients self.old.clients ≡ count_clients self.new.clients + 1 }
        ensures hands { HandsNothing self.old self.new }
    {
        loop_laws();
        let Some(client) = self.clients.try_remove(place) else {
            return;
        };
        self.core.close(client.conn());
        self.gone = self.gone.and(&client, &true);
        net.close(client.into_wire());
    }

    /// Hands in the present moment, unless that would change nothing. Answers whether something may have come of it
    /// for any client.
    pub(crate) fn tick<N: Network<W>>(&mut self, net: &mut N) -> bool
        ensures goes { Onward self.old self.new }
        ensures told { IsTold (N.value net.old) (N.value net.new) self.old self.new }
        ensures hands { HandsNothing self.old self.new }
    {
        loop_laws();
        let moment = net.moment();
        self.told = self.told.and(&moment, &true);
        let is_due = is_due(self.core.next_deadline(), moment.max(self.moment));
        if moment <= self.moment && !is_due {
            return false;
        }
        self.moment = moment.max(self.moment);
        let broke = self.core.moment(moment);
        is_due || broke
    }

    /// The drain begins: calls that are undecided end, and those that come are refused.
    pub(crate) fn drain(&mut self)
        ensures continues { Continues self.old self.new }
        ensures drained { self.new.drained ≡ true }
        ensures still { IsStill self.old self.new }
        ensures hands { HandsNothing self.old self.new }
    {
        loop_laws();
        self.drained = true;
        let _broke = self.core.drain();
    }

    /// The next job, if one waits.
    pub(crate) fn take_job(&mut self) -> Option<Job>
        ensures goes { Onward self.old self.new }
        ensures still { IsStill self.old self.new }
        ensures handed { self.new.handed ≡ self.old.handed ++ option_to_list (option_map (λ j. j.job) result) }
        ensures results { self.new.results ≡ self.old.results }
    {
        loop_laws();
        let job = self.core.take_job()?;
        self.handed = self.handed.and(&job, &true);
        Some(job)
    }

    /// Records what came of the job; None for want of memory.
    pub(crate) fn record(&mut self, job: &Job, outcome: Option<Outcome>)
        ensures goes { Onward self.old self.new }
        ensures still { IsStill self.old self.new }
        ensures results { self.new.results ≡ self.old.results ++ (job.now.job, outcome) ∷ [] }
        ensures handed { self.new.handed ≡ self.old.handed }
    {
        loop_laws();
        self.results = self.results.and(job, &outcome);
        let call = job.call();
        let _took = match outcome {
            Some(outcome) => self.core.result(&call, job.branch(), outcome),
            None => self.core.starved(&call, job.branch()),
        };
    }
}

impl<H: ReplyHook + Drop, W: Wire + Drop> Clients<H, W> {
    /// One history explains all that the clients brought and got. It does nothing.
    pub(crate) fn explained_law(&self)
        ensures { IsExplained self.now }
    {
        loop_laws();
        let _ = &self.alloc;
    }

    /// How many clients there are, those that linger among them.
    pub(crate) fn len(&self) -> usize
        ensures { result ≡ count_clients self.now.clients }
    {
        self.clients.len()
    }

    /// The first place that has a client.
    pub(crate) fn first_place(&self) -> Option<usize>
        ensures none { result ≡ None → count_clients self.now.clients ≡ 0 }
        ensures some { IfSome result (λ place. is_some (at place self.now.clients) ≡ true) }
    {
        Some(self.clients.iter().next()?.0)
    }

    /// How many clients linger.
    pub(crate) fn lingering(&self) -> usize
        ensures { result ≡ count_lingering self.now.clients }
    {
        self.clients
            .iter()
            .filter(|client| client.1.lingers())
            .count()
    }

    /// The last moment that was handed in.
    pub(crate) fn moment(&self) -> u64 {
        self.moment
    }

    /// Watches the stream of the client in that place. False where it can't be.
    pub(crate) fn watch<N: Network<W>>(&mut self, net: &mut N, place: usize) -> bool
        ensures goes { Onward self.old self.new }
        ensures still { IsStill self.old self.new }
        ensures net { N.value net.new ≡ N.value net.old }
        ensures hands { HandsNothing self.old self.new }
    {
        loop_laws();
        let Some(mut client) = self.clients.try_remove(place) else {
            return false;
        };
        let is_watched = client.watch(net, client_token(place));
        let _place = self.clients.insert_reserved(client);
        is_watched
    }

    /// Tells that the connection of the client in that place broke, if it did.
    pub(crate) fn tell_broken<N: Network<W>>(&self, net: &mut N, place: usize)
        ensures { N.value net.new ≡ N.value net.old }
    {
        let Some(client) = self.clients.get(place) else {
            return;
        };
        if self.core.is_broken(client.conn()) {
            net.tell_broken(client.wire(), client.conn());
        }
    }

    /// Whether the client in that place lingers: its connection was closed.
    pub(crate) fn lingers(&self, place: usize) -> bool {
        self.clients.get(place).is_some_and(Client::lingers)
    }

    /// Whether the client in that place lingers, and goes: its stream has brought its end, or its time is over.
    pub(crate) fn is_to_go(&self, place: usize) -> bool {
        let Some(client) = self.clients.get(place) else {
            return false;
        };
        client.lingers() && (client.has_ended() || is_due(client.until(), self.moment))
    }

    /// The first limit of those that linger.
    pub(crate) fn next_until(&self) -> Option<u64> {
        let clients = self.clients.iter();
        clients.filter_map(|client| client.1.until()).min()
    }

    /// So many places have clients, or had some since none was there.
    pub(crate) fn places(&self) -> usize {
        self.places
    }

    /// Whether the connection of the client in that place is open, and its stream may bring more.
    pub(crate) fn is_read(&self, place: usize) -> bool {
        matches!(self.clients.get(place), Some(client) if !client.lingers() && !client.has_ended())
    }

    /// Whether nothing is to be done for the client in that place before that moment.
    pub(crate) fn rests(&self, place: usize, until: Option<u64>) -> bool {
        let client = self.clients.get(place);
        client.is_none_or(|client| client.rests(&self.core, until, place))
    }

    /// Whether nothing is to be done for any client before that moment.
    pub(crate) fn all_rest(&self, until: Option<u64>) -> bool
        ensures { IsTrue result → AllRest until self.now }
    {
        let mut clients = self.clients.iter();
        clients.all(|client| client.1.rests(&self.core, until, client.0))
    }

    /// Whether the client in that place is to be read: its stream may have bytes.
    pub(crate) fn is_to_be_read(&self, place: usize) -> bool {
        matches!(self.clients.get(place), Some(client) if client.is_to_be_read(&self.core))
    }

    /// Whether the client in that place is owed nothing, and brings nothing more.
    pub(crate) fn is_to_leave(&self, place: usize) -> bool {
        matches!(self.clients.get(place), Some(client) if client.is_to_leave(&self.core))
    }

    /// How many requests of the client in that place were read so far.
    pub(crate) fn requests(&self, place: usize) -> u64 {
        match self.clients.get(place) {
            Some(client) => self.core.requests(client.conn()),
            None => 0,
        }
    }

    /// The place of the first client to whom nothing is owed: each of its requests has its reply, and that was written.
    pub(crate) fn idle_place(&self) -> Option<usize> {
        let mut clients = self.clients.iter();
        let idle = clients.find(|client| client.1.is_idle(&self.core))?;
        Some(idle.0)
    }

    /// The place of the client that waits for the job's answer.
    pub(crate) fn client_of(&self, job: &Job) -> Option<usize> {
        if !job.wanted() {
            return None;
        }
        let conn = job.call().conn;
        let mut clients = self.clients.iter();
        let client = clients.find(|client| client.1.conn() == conn && !client.1.lingers())?;
        Some(client.0)
    }

    /// Whether a reply is there for the client in that place, or its connection no longer brings requests or replies.
    pub(crate) fn has_news(&self, place: usize) -> bool {
        matches!(self.clients.get(place), Some(client) if client.has_news(&self.core))
    }

    /// The core.
    pub(crate) fn core(&self) -> &Core<H>
        ensures { result.now ≡ self.now.core }
    {
        &self.core
    }

    /// The place of that one of the exchanges for the calls of the client in that place, by its number among them.
    pub(crate) fn exchange_of(&self, place: usize, number: usize) -> Option<usize> {
        Some(*self.clients.get(place)?.hints().exchanges.get(number)?)
    }
}

// what else is known of them
impl<H: ReplyHook + Drop, W: Wire + Drop> Clients<H, W> {
    /// Something became possible at the stream of the client in that place.
    pub(crate) fn note_ready(&mut self, place: usize, ready: Ready)
        ensures exact { self.new ≡ record self.old { clients = changed_at (told_client ready) place self.old.clients } }
        ensures goes { Onward self.old self.new }
        ensures still { IsStill self.old self.new }
    {
        loop_laws();
        if let Some(client) = self.clients.get_mut(place) {
            client.report(ready);
        }
    }

    /// Whether the client in that place is among those that may have news from now on. Answers whether it was; true
    /// where nobody is there.
    pub(crate) fn set_noted(&mut self, place: usize, is_noted: bool) -> bool
        ensures { self.new ≡ self.old }
    {
        match self.clients.get_mut(place) {
            Some(client) => client.hints_mut().set_noted(is_noted),
            None => true,
        }
    }

    /// Whether the last piece that the client in that place brought made no request.
    pub(crate) fn set_half_read(&mut self, place: usize, is_half_read: bool)
        ensures { self.new ≡ self.old }
    {
        if let Some(client) = self.clients.get_mut(place) {
            client.hints_mut().set_half_read(is_half_read);
        }
    }

    /// The exchange in that place is for the client. False for want of memory, and where nobody is there.
    pub(crate) fn enlist(&mut self, client: usize, place: usize) -> bool
        ensures { self.new ≡ self.old }
    {
        match self.clients.get_mut(client) {
            Some(client) => client.hints_mut().enlist(place),
            None => false,
        }
    }

    /// The exchange in that place, which was for the client, is over.
    pub(crate) fn forget_exchange(&mut self, client: usize, place: usize)
        ensures { self.new ≡ self.old }
    {
        if let Some(client) = self.clients.get_mut(client) {
            client.hints_mut().forget_exchange(place);
        }
    }

    /// The places of the exchanges for the calls of the client in that place, which it has no longer.
    pub(crate) fn take_exchanges(&mut self, place: usize) -> Vec<usize>
        ensures { self.new ≡ self.old }
    {
        let alloc = self.alloc;
        match self.clients.get_mut(place) {
            Some(client) => client.hints_mut().take_exchanges(alloc),
            None => Vec::new(alloc),
        }
    }
}
