ghost use Rattle.connect_gateway.specs.Looping.{LoopingValue, closes_idle, ends_calls, looping_value};
ghost use Rattle.std.specs.Prelude.{⊤, ◌≡◌, ◌||◌, ◌∷◌, [], IfOk, false, true};

use crate::host::{Host, NetHost, SinceStart};
use crate::loop_log::{LogLines, LoopLog};
use crate::loop_side::{LoopSide, Mail, PAUSE};
use crate::main_side::MainSide;
use crate::resolver::Resolver;
use crate::socket::Socket;
use access_log::Caller;
use admin::{LoopCounts, ServedNames, Stage};
use call_plan::Plans;
use crossbeam_channel::Receiver;
use gateway_core::{CallId, ConnId, Job, ReplyEntry, RequestLabel};
use gateway_loop::{BranchEnd, Comings, EventLoop, NamesAsked, Network, NextTurn, Ready};
use http_pieces::Framing;
use http_server::Log;
use mio::event::Event;
use mio::unix::SourceFd;
use mio::{Events, Interest, Poll, Token, Waker};
use script_replay::{Fault, PlainHook};
use std::alloc::{AllocError, Global};
use std::marker::Model;
use std::net::SocketAddr;
use std::sync::Arc;
use std::sync::atomic::Ordering;
use std::time::Duration;
use std::{io, thread};
use wires::{Told, Wire};

/// A loop ends where so many waits in a row failed.
const MOST_FAILURES: u32 = 300;

/// A turn takes so much mail at most.
const MOST_MAIL: usize = 64;

/// What all loops of a program share.
#[derive(Drop)]
pub(crate) struct Common<M> {
    pub(crate) rt: M,
    pub(crate) alloc: Global,
    /// From when on moments count.
    pub(crate) clock: SinceStart,
    /// Looks names up for them.
    pub(crate) resolver: Arc<Resolver>,
    /// None where nothing is told.
    pub(crate) lines: Option<LogLines>,
    /// What is served, by which replies are counted; None where they are not.
    pub(crate) names: Option<Arc<ServedNames>>,
    /// What main shares with them.
    pub(crate) main: Arc<MainSide>,
    /// How replies of backends may be framed.
    pub(crate) framing: Framing,
    /// For how many milliseconds connections to backends are kept; None where none is.
    pub(crate) keep: Option<u64>,
}

// Clauses see nothing of it, which keeps proofs small.
impl<M> Model for Common<M> {
    ghost Value = { ⊤ };

    ghost view = { λ _. tt };
}

/// A loop, and what its thread needs to run it. Contracts see the plans that it serves, and whether it was drained.
#[derive(Drop)]
pub(crate) struct Looping<M> {
    rt: M,
    event_loop: EventLoop<PlainHook, Told<Socket>>,
    network: MioNetwork<M>,
    comings: Comings<PlainHook, Told<Socket>>,
    mail: Receiver<Mail>,
    /// What it shares with other threads.
    pub(crate) side: Arc<LoopSide>,
    main: Arc<MainSide>,
    // whether the drain has ended the calls that were left
    has_ended_calls: bool,
    // whether idle connections are to be closed, and what came before could not be looked at yet
    has_idle: bool,
}

impl<M> Model for Looping<M> {
    ghost use Rattle.std.specs.Prelude.{◌≡◌};
    ghost use Rattle.connect_gateway.specs.Looping.{LoopingValue, looping_value};

    ghost Value = { LoopingValue };

    ghost view = { λ l. looping_value l.event_loop };

    ghost invariant = { λ l. l.has_ended_calls ≡ l.event_loop.side.drained };
}

impl<M: NetHost> Looping<M> {
    /// The loop with that number, which serves these plans. `Io` where the system offers it no sockets to wait for.
    pub(crate) fn new(common: &Common<M>, worker: u32, plans: Plans) -> Result<Looping<M>, Fault>
        ensures serves { IfOk result (λ l. l.plans ≡ plans) }
        ensures undrained { IfOk result (λ l. l.drained ≡ false) }
    {
        let poll = Poll::new(&common.rt)?;
        let waker = Waker::new(poll.registry(), WAKER)?;
        let names = common.names.as_ref();
        let counts = names.map(|names| LoopCounts::new(common.alloc, names));
        let (side, mail) = LoopSide::new(common.alloc, waker, counts.transpose()?)?;
        let side = Arc::new(common.alloc, side)?;
        let network = MioNetwork::new(common, worker, poll, &side)?;
        let mut comings = Comings::new(common.alloc);
        // room for the mail of a turn
        comings.streams.reserve(MOST_MAIL)?;
        comings.found.reserve(MOST_MAIL)?;
        let main = Arc::try_clone(&common.main)?;
        Ok(Looping {
            rt: common.rt,
            event_loop: EventLoop::new(common.alloc, plans, common.framing, common.keep)?,
            network,
            comings,
            mail,
            side,
            main,
            has_ended_calls: false,
            has_idle: false,
        })
    }

    /// Serves clients until main deals no more and all have gone, until a drain cuts them, or until it can't wait for
    /// them any more. Those that are left are closed. Answers whether it did not give up.
    pub(crate) fn run(mut self) -> bool {
        let are_gone = self.serve();
        self.side.end(&self.rt);
        drop(self.mail);
        drop(self.comings);
        self.event_loop.close_all(&mut self.network);
        drop(self.event_loop);
        self.main.wake(&self.rt);
        are_gone
    }

    fn serve(&mut self) -> bool {
        let rt = self.rt;
        let mut failures: u32 = 0;
        for _ in rt.forever() {
            let next = self.next_turn();
            match self.network.wait(next, &mut self.comings.ready) {
                Ok(_) => failures = 0,
                Err(_) if failures >= MOST_FAILURES => return false,
                Err(_) => {
                    failures = failures.saturating_add(1);
                    thread::sleep(&rt, Duration::from_millis(PAUSE));
                }
            }
            // what was handed in before main closed it is there by then
            let is_closed = self.side.is_closed();
            let stage = self.side.stage();
            self.take_mail();
            self.turn(stage);
            self.side.tell(&rt, self.event_loop.standing());
            let are_gone = is_closed && self.mail.is_empty() && self.event_loop.is_empty();
            if are_gone || self.side.stage() == Stage::Cuts {
                return true;
            }
        }
        unreachable!()
    }

    /// A turn, and what this stage of a drain asks for. The calls that are left are ended from the stage on that asks
    /// for that, and in no other.
    fn turn(&mut self, stage: Stage)
        ensures plans { self.new.plans ≡ self.old.plans }
        ensures drained { self.new.drained ≡ (self.old.drained || ends_calls stage) }
    {
        self.event_loop.turn(&mut self.network, &mut self.comings);
        if ends_calls(stage) {
            self.end_calls();
        }
        if closes_idle(stage) {
            self.close_idle();
        }
    }

    /// Ends the calls that are left, once.
    fn end_calls(&mut self)
        ensures plans { self.new.plans ≡ self.old.plans }
        ensures drained { self.new.drained ≡ true }
    {
        if !self.has_ended_calls {
            self.has_ended_calls = true;
            self.event_loop.drain(&mut self.network);
        }
    }

    /// Closes connections to which nothing is owed, of which nothing is unread.
    fn close_idle(&mut self)
        ensures plans { self.new.plans ≡ self.old.plans }
        ensures drained { self.new.drained ≡ self.old.drained }
    {
        // what came meanwhile is read first, and all of it
        let waited = self.network.wait(NextTurn::AtOnce, &mut self.comings.ready);
        self.has_idle = !matches!(waited, Ok(false));
        if waited.is_ok() {
            self.event_loop.turn(&mut self.network, &mut self.comings);
            if !self.has_idle && self.event_loop.next_turn() != NextTurn::AtOnce {
                self.event_loop.close_idle(&mut self.network);
            }
        }
    }

    /// When a turn is due though the loop is not woken.
    fn next_turn(&mut self) -> NextTurn {
        // a wake-up may have come while it was looked at what came meanwhile
        let stage = self.side.stage();
        let is_to_end_calls = ends_calls(stage) && !self.has_ended_calls;
        if self.mail.is_empty() && !is_to_end_calls && stage != Stage::Cuts && !self.has_idle {
            self.event_loop.next_turn()
        } else {
            NextTurn::AtOnce
        }
    }

    fn take_mail(&mut self) {
        for _mail in 0..MOST_MAIL {
            // there is room
            match self.mail.try_recv(&self.rt) {
                Ok(Mail::Stream(dealt)) => {
                    let _ = self.comings.streams.push_back(dealt);
                }
                Ok(Mail::Found(found)) => {
                    let _ = self.comings.found.push_back(found);
                }
                Err(_) => return,
            }
        }
    }
}

/// Whether calls that are left are to be ended at that stage of a drain.
fn ends_calls(stage: Stage) -> bool
    ensures { result ≡ ends_calls stage }
{
    matches!(stage, Stage::Ends | Stage::Cuts)
}

/// Whether connections are to be closed then as soon as nothing is owed to them.
fn closes_idle(stage: Stage) -> bool
    ensures { result ≡ closes_idle stage }
{
    matches!(stage, Stage::Closes | Stage::Ends | Stage::Cuts)
}

/// The token of a loop's waker.
pub(crate) const WAKER: Token = Token(usize::MAX);

/// So many sockets are told to be ready at a time; the next wait tells of the others.
const MOST_EVENTS: usize = 256;

/// The sockets of a loop, by `mio`, and what else it needs of the system.
#[derive(Drop)]
pub(crate) struct MioNetwork<M> {
    rt: M,
    alloc: Global,
    poll: Poll,
    events: Events,
    clock: SinceStart,
    side: Arc<LoopSide>,
    resolver: Arc<Resolver>,
    log: Option<LoopLog>,
    // for proofs: the moments that it told, the streams that it made, by their addresses, and closed, and the names
    // that it took to look up
    told: Log<u64, ()>,
    made: Log<SocketAddr, ()>,
    closed: Log<Told<Socket>, ()>,
    asked: NamesAsked,
}

impl<M> Model for MioNetwork<M> {
    ghost use Rattle.loop_model.specs.Accounts.{NetworkValue, network_value};

    ghost Value = { NetworkValue };

    ghost view = { λ n. network_value n.told.items n.made.items n.closed.items n.asked.items };
}

impl<M: Host> MioNetwork<M> {
    /// The sockets of the loop with that number, which are waited for by that poll.
    pub(crate) fn new(
        common: &Common<M>,
        worker: u32,
        poll: Poll,
        side: &Arc<LoopSide>,
    ) -> Result<MioNetwork<M>, AllocError> {
        let side = Arc::try_clone(side)?;
        let resolver = Arc::try_clone(&common.resolver)?;
        let lines = common.lines.as_ref();
        let log = lines.map(|lines| lines.of_loop(common.alloc, worker));
        Ok(MioNetwork {
            rt: common.rt,
            alloc: common.alloc,
            clock: common.clock,
            side,
            resolver,
            log: log.transpose()?,
            events: Events::with_capacity(common.alloc, MOST_EVENTS)?,
            poll,
            told: Log::new(),
            made: Log::new(),
            closed: Log::new(),
            asked: NamesAsked::new(),
        })
    }

    /// Waits until the next turn is due or the loop is woken, and tells what is ready. Answers whether more may be
    /// ready than one wait brings. It does not wait, where nothing of that can be told.
    pub(crate) fn wait(&mut self, next: NextTurn, ready: &mut Vec<Ready>) -> io::Result<bool> {
        ready.clear();
        // the system tells each of them once
        ready.reserve(MOST_EVENTS)?;
        let timeout = self.time_to(next);
        self.poll.poll(&mut self.events, timeout)?;
        let mut count = 0usize;
        for event in &self.events {
            count = count.saturating_add(1);
            if event.token() != WAKER {
                // there is room
                let _ = ready.push(ready_of(event));
            }
        }
        Ok(count >= MOST_EVENTS)
    }

    /// How long it is until then; None where nothing is due.
    fn time_to(&mut self, next: NextTurn) -> Option<Duration> {
        match next {
            NextTurn::AtOnce => Some(Duration::from_millis(0)),
            NextTurn::At(moment) => {
                let now = self.clock.now(&self.rt);
                Some(Duration::from_millis(moment.saturating_sub(now)))
            }
            NextTurn::Never => None,
        }
    }
}

impl<M: NetHost> Network<Told<Socket>> for MioNetwork<M> {
    ghost value = { λ n. n };

    fn moment(&mut self) -> u64 {
        let moment = self.clock.now(&self.rt);
        self.told = self.told.and(&moment, &());
        moment
    }

    fn connect(&mut self, address: SocketAddr, length: usize) -> Told<Socket> {
        self.made = self.made.and(&address, &());
        self.side.opened.fetch_add(1, Ordering::SeqCst);
        Told::new(Socket::to_backend(&self.rt, address, length), Some(address))
    }

    fn close(&mut self, wire: Told<Socket>) {
        self.closed = self.closed.and(&wire, &());
        drop(wire);
    }

    fn watch(&mut self, wire: &mut Told<Socket>, token: usize, writes: bool) -> bool {
        let Some(descriptor) = wire.stream().descriptor() else {
            return false;
        };
        // a read stops short at an urgent mark, of which only this tells
        let reads = Interest::READABLE | Interest::PRIORITY;
        let interests = if writes {
            reads | Interest::WRITABLE
        } else {
            reads
        };
        // so it takes no `&mut` of the socket itself, whose reads and writes its wire notes
        let mut source = SourceFd(&descriptor);
        let registry = self.poll.registry();
        // one that is used again was watched before
        let registered = match wire.watched() {
            None => registry.register(&mut source, Token(token), interests),
            Some(_) => registry.reregister(&mut source, Token(token), interests),
        };
        if registered.is_err() {
            return false;
        }
        wire.note_watched(token, writes);
        true
    }

    fn look_up(&mut self, name: &str) -> bool {
        if self.resolver.ask(&self.rt, name, &self.side).is_none() {
            return false;
        }
        self.asked = self.asked.and(name);
        true
    }

    fn tell_reply(
        &mut self,
        client: &Told<Socket>,
        id: CallId,
        entry: &ReplyEntry,
        label: &RequestLabel,
    ) {
        let moment = self.clock.now(&self.rt);
        if let Some(counts) = &self.side.counts {
            counts.count(moment, entry);
        }
        if let Some(log) = &self.log {
            let peer = client.stream().peer_text(self.alloc);
            let caller = Caller {
                request_id: label.id(),
                target: label.target(),
                peer: peer.as_ref().map(|peer| peer.as_str()),
            };
            log.tell_reply(&self.rt, moment, id, entry, &caller);
        }
    }

    fn tell_broken(&mut self, client: &Told<Socket>, conn: ConnId) {
        self.side.broken.fetch_add(1, Ordering::SeqCst);
        if let Some(log) = &self.log {
            let peer = client.stream().peer_text(self.alloc);
            log.tell_broken(&self.rt, conn, peer.as_ref().map(|peer| peer.as_str()));
        }
    }

    fn tell_unserved(&mut self) {
        self.side.unserved.fetch_add(1, Ordering::SeqCst);
        if let Some(log) = &self.log {
            log.tell_unserved(&self.rt);
        }
    }

    fn tell_unasked(&mut self, job: &Job) {
        if let Some(log) = &self.log {
            log.tell_unasked(&self.rt, job);
        }
    }

    fn tell_branch(&mut self, end: &BranchEnd) {
        if let Some(counts) = &self.side.counts {
            let job = &end.job;
            counts.count_branch(job.plan_path(), job.branch(), end.cause, end.took);
        }
        if let Some(log) = &mut self.log {
            log.tell_branch(&self.rt, end);
        }
    }
}

/// What the system tells of a socket. One that failed is read and written, which shows how.
fn ready_of(event: &Event) -> Ready {
    Ready {
        token: event.token().0,
        readable: event.is_readable() || event.is_error() || event.is_read_closed(),
        writable: event.is_writable() || event.is_error(),
        read_closed: event.is_read_closed() || event.is_error(),
        urgent: event.is_priority(),
    }
}
