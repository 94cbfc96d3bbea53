ghost use Rattle.std.specs.Prelude.{⊤};

use crate::admin_door::{AdminDoor, Now};
use crate::host::{Host, SinceStart};
use crate::log_writer::milliseconds_since_1970;
use crate::loop_log::LogLines;
use crate::loop_side::{LoopSide, Mail};
use crate::main_side::MainSide;
use crate::socket::{Newcomer, Seat, Socket, lacks_descriptor, turn_away};
use crate::waiting::Waiting;
use access_log::{Remark, Unserved, remark_line};
use admin::{Readiness, Stage};
use gateway_loop::Dealt;
use mio::net::TcpListener;
use mio::{Events, Interest, Poll, Token, Waker};
use script_replay::{Fault, stock};
use std::alloc::Global;
use std::io::{self, ErrorKind};
use std::marker::Model;
use std::net::Net;
use std::sync::Arc;
use std::sync::atomic::Ordering;
use std::thread;
use std::time::Duration;
use wires::Told;

/// A loop has at most so many open connections.
const CONNECTIONS: u64 = 64;

/// An accept that failed is tried again after so many milliseconds.
const PAUSE: u64 = 10;

/// So often it is tried again while no backend is asked.
const MOST_TRIES: u32 = 300;

/// Behind so many streams that were accepted without a wait it is looked at who else came.
const MANY: u64 = 64;

/// What is told where there is no descriptor for a stream.
const NO_DESCRIPTOR: &str =
    "descriptors: none is left, and streams wait at the listener: ulimit -n, or LimitNOFILE in a unit";

const LISTENER: Token = Token(0);

const WAKER: Token = Token(1);

/// As many sockets may be told of at once as there may be.
const EVENTS: usize = 64;

/// Accepts streams and deals them to the loops, and attends to the address for operators, if there is one.
#[derive(Drop)]
pub(crate) struct Dealer<M> {
    rt: M,
    alloc: Global,
    clock: SinceStart,
    // none once nobody listens any more
    listener: Option<TcpListener>,
    // streams that were accepted and not dealt yet
    waiting: Waiting<Newcomer>,
    poll: Poll,
    events: Events,
    /// What main shares with the loops.
    pub(crate) main: Arc<MainSide>,
    /// What the loops share with main.
    pub(crate) sides: Vec<Arc<LoopSide>>,
    admin: Option<AdminDoor>,
    log: Option<LogLines>,
    // how many streams were closed without a byte
    unserved: u64,
    // whether it was told that there is no descriptor for a stream, which waits at the listener
    tells_descriptors: bool,
    // the stage of a drain that the loops know
    stage: Stage,
}

// Clauses see nothing of it, which keeps proofs small.
impl<M> Model for Dealer<M> {
    ghost Value = { ⊤ };

    ghost view = { λ _. tt };
}

impl<M: Host + Net> Dealer<M> {
    /// With no loops yet.
    pub(crate) fn new(
        rt: M,
        alloc: Global,
        clock: SinceStart,
        mut listener: TcpListener,
        mut admin: Option<AdminDoor>,
        log: Option<LogLines>,
    ) -> Result<Dealer<M>, Fault> {
        let poll = Poll::new(&rt)?;
        poll.registry()
            .register(&mut listener, LISTENER, Interest::READABLE)?;
        if let Some(door) = &mut admin {
            door.watch(&poll)?;
        }
        let waker = Waker::new(poll.registry(), WAKER)?;
        Ok(Dealer {
            rt,
            alloc,
            clock,
            listener: Some(listener),
            waiting: Waiting::new(alloc)?,
            events: Events::with_capacity(alloc, EVENTS)?,
            main: Arc::new(alloc, MainSide::new(waker))?,
            poll,
            sides: Vec::new(alloc),
            admin,
            log,
            unserved: 0,
            tells_descriptors: false,
            stage: Stage::Serves,
        })
    }

    /// Whether there is an address at which operators ask.
    pub(crate) fn is_asked(&self) -> bool {
        self.admin.is_some()
    }

    /// Listens no more, and deals no more. Who waits still for a place is turned away.
    pub(crate) fn close(&mut self) {
        drop(self.listener.take());
        self.turn_away_late(u64::MAX);
        for side in &self.sides {
            side.close(&self.rt);
        }
        let moment = self.clock.now(&self.rt);
        if let Some(door) = &mut self.admin {
            door.drain.close(moment);
        }
        self.follow_drain();
    }

    /// Attends to the address for operators, if there is one, until all loops are over.
    pub(crate) fn attend_to_the_end(&mut self) {
        let rt = self.rt;
        for _ in rt.forever() {
            if self.admin.is_none() || self.are_over() {
                return;
            }
            if self.wait(None).is_err() {
                thread::sleep(&rt, Duration::from_millis(PAUSE));
            }
        }
        unreachable!()
    }

    /// Accepts so many streams, or until a drain ends that, and deals each to a loop. Where there is no descriptor for
    /// one it is tried again. `Io` where accepting fails otherwise for too long, and where no loop is left.
    pub(crate) fn deal_streams(&mut self, most: u64) -> Result<(), Fault> {
        let rt = self.rt;
        let mut accepted: u64 = 0;
        let mut tries: u32 = 0;
        for _ in rt.forever() {
            self.deal_waiting();
            if accepted >= most {
                drop(self.listener.take());
            }
            if self.are_over() {
                return self.listener.as_ref().map_or(Ok(()), |_| Err(Fault::Io));
            }
            match self.accept() {
                Ok(Accepted::Stream(stream)) => {
                    self.take_in(stream);
                    accepted = accepted.saturating_add(1);
                    tries = 0;
                    if accepted % MANY == 0 {
                        self.look();
                    }
                }
                Ok(Accepted::Nothing) => tries = 0,
                Ok(Accepted::NoMore) => return Ok(()),
                // in a drain nobody is waited for
                Err(_) if self.stage == Stage::Closes => return Ok(()),
                Err(error) if lacks_descriptor(&error) => self.pause_for_descriptor(),
                Err(_) if tries >= MOST_TRIES => return Err(Fault::Io),
                Err(_) => tries = tries.saturating_add(u32::from(!self.pause())),
            }
        }
        unreachable!()
    }

    /// Pauses where there is no descriptor for a stream. That is told once, until none waits at the listener any more.
    fn pause_for_descriptor(&mut self) {
        if let Some(log) = &self.log {
            if !self.tells_descriptors {
                let time = milliseconds_since_1970(&self.rt);
                let line = remark_line(self.alloc, time, Remark::Warning, NO_DESCRIPTOR);
                log.add(&self.rt, line.ok());
            }
        }
        self.tells_descriptors = true;
        let _is_asking = self.pause();
    }

    /// Pauses after an accept that failed, and attends to operators. Answers whether a backend is asked.
    fn pause(&mut self) -> bool {
        let rt = self.rt;
        thread::sleep(&rt, Duration::from_millis(PAUSE));
        self.look();
        self.sides.iter().any(|side| side.standing(&rt).asking > 0)
    }

    /// The next stream. Where none comes it is waited for one, for a place if somebody waits for one, for the end of a
    /// loop or for an operator, unless nobody is to listen any more and nobody waits.
    fn accept(&mut self) -> io::Result<Accepted> {
        if let Some(stream) = self.next_stream()? {
            return Ok(Accepted::Stream(stream));
        }
        let is_closed = self.listener.is_none() || self.stage == Stage::Closes;
        if is_closed && self.waiting.is_empty() {
            return Ok(Accepted::NoMore);
        }
        self.wait_for_place()?;
        Ok(Accepted::Nothing)
    }

    /// The next stream that waits at the listener, unless no more may wait for a place.
    fn next_stream(&mut self) -> io::Result<Option<Newcomer>> {
        let Some(listener) = &self.listener else {
            return Ok(None);
        };
        if self.waiting.is_full() {
            return Ok(None);
        }
        match listener.accept() {
            Ok((stream, peer)) => Ok(Some(Newcomer { stream, peer })),
            Err(error) if error.kind() == ErrorKind::WouldBlock => {
                self.tells_descriptors = false;
                Ok(None)
            }
            Err(error) => Err(error),
        }
    }

    /// Waits without a limit; where somebody waits for a place, until there is one or he has waited for too long.
    fn wait_for_place(&mut self) -> io::Result<()> {
        let Some(until) = self.waiting.until() else {
            return self.wait(None);
        };
        let moment = self.clock.now(&self.rt);
        self.main.await_place(true);
        // a place that was given back before that wakes nobody
        let most = match self.emptiest() {
            Some(_) => 0,
            None => until.saturating_sub(moment),
        };
        let waited = self.wait(Some(most));
        self.main.await_place(false);
        waited
    }

    /// Takes in a stream that was accepted: it is dealt, behind those that wait, or waits too. Where there is no memory
    /// for that it is closed.
    fn take_in(&mut self, newcomer: Newcomer) {
        let moment = self.clock.now(&self.rt);
        if self.waiting.add(newcomer, moment).is_err() {
            self.tell_unserved(Unserved::NoMemory);
        }
        self.deal_waiting();
    }

    /// Deals streams that wait to loops that have a place for them, the oldest first. Those that have waited for too
    /// long are turned away, and once a drain closes all that are left.
    fn deal_waiting(&mut self) {
        for _waiter in 0..self.waiting.len() {
            let Some(place) = self.emptiest() else {
                break;
            };
            let Some(newcomer) = self.waiting.next() else {
                break;
            };
            if self.hand_to(place, newcomer).is_none() {
                self.tell_unserved(Unserved::NoMemory);
            }
        }
        if !self.waiting.is_empty() {
            let moment = if self.stage == Stage::Closes {
                u64::MAX
            } else {
                self.clock.now(&self.rt)
            };
            self.turn_away_late(moment);
        }
    }

    /// Closes those streams that have waited for a place up to that moment.
    fn turn_away_late(&mut self, moment: u64) {
        for _waiter in 0..self.waiting.len() {
            let Some(newcomer) = self.waiting.next_late(moment) else {
                return;
            };
            turn_away(newcomer.stream);
            self.tell_unserved(Unserved::NoPlace);
        }
    }

    /// Attends to operators, if there are some, without a wait.
    fn look(&mut self) {
        if self.admin.is_some() {
            let _ = self.wait(Some(0));
        }
    }

    /// Waits for so many milliseconds at most, attends to operators, and tells the loops how far a drain is.
    fn wait(&mut self, most: Option<u64>) -> io::Result<()> {
        let moment = self.clock.now(&self.rt);
        let left = self.admin.as_ref().and_then(|door| door.time_left(moment));
        let timeout = sooner(most, left);
        self.poll
            .poll(&mut self.events, timeout.map(Duration::from_millis))?;
        let now = Now {
            moment: self.clock.now(&self.rt),
            readiness: self.readiness(),
            unserved: self.unserved,
        };
        if let Some(door) = &mut self.admin {
            door.attend(&self.rt, &self.poll, &self.events, &self.sides, &now);
        }
        self.follow_drain();
        Ok(())
    }

    /// Tells the loops of the stage that a drain has come to. Connections are closed only once nobody listens.
    fn follow_drain(&mut self) {
        let moment = self.clock.now(&self.rt);
        let Some(door) = &self.admin else {
            return;
        };
        let stage = door.drain.stage(moment);
        if self.listener.is_none() && self.waiting.is_empty() && stage != Stage::Serves {
            for side in &self.sides {
                side.follow(&self.rt, stage);
            }
        }
        self.stage = stage;
    }

    /// Whether a stream would be accepted.
    fn readiness(&self) -> Readiness {
        if self.listener.is_none() {
            Readiness::Closed
        } else if self.stage != Stage::Serves {
            Readiness::Draining
        } else if !self.waiting.is_empty() || self.emptiest().is_none() {
            Readiness::Full
        } else {
            Readiness::Ready
        }
    }

    /// Whether no loop is left.
    fn are_over(&self) -> bool {
        self.sides.iter().all(|side| side.is_over())
    }

    /// Hands a stream to the loop in that place. None where there is no memory for that: then it is closed.
    fn hand_to(&self, place: usize, newcomer: Newcomer) -> Option<()> {
        let side = self.sides.get(place)?;
        let seat = Seat::among(&side.open, &self.main).ok()?;
        let socket = Socket::of_client(newcomer, seat).ok()?;
        let dealt = Dealt::new(Told::new(socket, None), stock(self.alloc).ok()?);
        side.hand_in(&self.rt, Mail::Stream(dealt)).ok()
    }

    /// A stream was closed without a byte.
    fn tell_unserved(&mut self, why: Unserved) {
        self.unserved = self.unserved.saturating_add(1);
        if let Some(log) = &self.log {
            log.tell_unserved(&self.rt, self.alloc, why);
        }
    }

    /// The place of the loop with the fewest connections. None where all are full or over.
    fn emptiest(&self) -> Option<usize> {
        let mut found = None;
        let mut fewest = CONNECTIONS;
        for (place, side) in self.sides.iter().enumerate() {
            let open = side.open.load(Ordering::SeqCst);
            if open < fewest && !side.is_over() {
                found = Some(place);
                fewest = open;
            }
        }
        found
    }
}

/// What accepting came to.
#[derive(Drop)]
enum Accepted {
    Stream(Newcomer),
    /// None waited, and a wait is over.
    Nothing,
    /// None waits, and no more are to be accepted.
    NoMore,
}

/// The shorter of two times, of which either may be absent.
pub(crate) fn sooner(one: Option<u64>, other: Option<u64>) -> Option<u64> {
    one.into_iter().chain(other).min()
}
