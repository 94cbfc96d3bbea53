ghost use Rattle.std.specs.Prelude.{◌≡◌, ◌↔◌, ◌⊎◌, [], All, None, Some, false, true, is_some, IfOk, IfSome, IsFalse, IsTrue, MatchOption, map, option_and_then, option_to_list};
ghost use Rattle.std.specs.Borrow.{sem};
ghost use Rattle.std.specs.Option.{option_map_or};
ghost use Rattle.branch_causes.specs.Causes.{cause_of_end, status_of_end};
ghost use Rattle.branch_causes.specs.declared.cause.Cause.TheVariants.{NotWanted};
ghost use Rattle.branch_exchange.specs.Outcomes.{asked_of, outcome_of_asked};
ghost use Rattle.branch_asking.specs.Addresses.{HasParsed, next_of};
ghost use Rattle.branch_asking.specs.Streams.{Connects, GoesOverAgain, HasStreamsOf, IsReadyFor, left_by};
ghost use Rattle.branch_asking.specs.Asking.{Finds, HasLookedAt, NotesStream, asked_for, got_by, noted_attempt, timed_attempt, until_of, watched_attempt};
ghost use Rattle.branch_asking.specs.Rests.{rests_asked};
ghost use Rattle.loop_model.specs.Asking.{BeginsRequest, IsFair, ended_value};
ghost use Rattle.loop_model.specs.Requests.{request_of};
ghost use Rattle.loop_model.specs.Shares.{IsWhole};
ghost use Rattle.loop_model.specs.Whole.{AsksOn, share_of};

use crate::addresses::Addresses;
use crate::attempt::{Attempt, Step};
use crate::backend::Backend;
use crate::errand::Errand;
use crate::network::Network;
use branch_causes::{Cause, cause_of_end, status_of_end};
use branch_exchange::{Asked, ExchangeEnd, Loss, outcome_of};
use connect_codec::{BranchAsk, Outcome, passing_request};
use gateway_core::Job;
use http_pieces::Bytes;
use http_server::Log;
use loop_model::Manner;
use std::alloc::{AllocError, Global};
use std::collections::VecDeque;
use std::io::ErrorKind;
use std::marker::Model;
use std::mem;
use std::net::SocketAddr;
use wires::{Ready, Wire};

/// A job that is asked for.
#[derive(Drop)]
pub struct Asking<W: Wire> {
    // for proofs: how it is asked
    manner: Manner,
    job: Job,
    addresses: Addresses,
    attempt: Attempt<W>,
    // how it ended, until that is recorded
    end: Option<ExchangeEnd>,
    errand: Errand,
    // for proofs: the streams that were given up before
    tried: Log<Backend<W>, bool>,
}

impl<W: Wire> Model for Asking<W> {
    ghost use Rattle.branch_asking.specs.Asking.{AskingState, HasBegun, asking_state};

    ghost Value = { AskingState };

    ghost view = { λ a. asking_state a.manner a.job a.addresses a.attempt a.end a.tried.items };

    ghost invariant = { λ a. HasBegun (asking_state a.manner a.job a.addresses a.attempt a.end a.tried.items) };
}

/// What a step of a job that is asked for came to.
#[derive(Clone, Copy, PartialEq, Eq, Debug)]
pub enum Progress {
    /// It would have to wait.
    Waits,
    /// There may be more to do.
    More,
    /// Its address accepts no connection: nothing was written.
    Refused(ErrorKind),
    /// It is over.
    Ended,
}

/// What a job that was asked for came to.
#[derive(Drop)]
pub struct Concluded {
    /// The outcome that is to be recorded; None for want of memory.
    pub outcome: Option<Outcome>,
    /// Whether that is of a whole reply, nothing was read behind it, and its connection stays.
    pub is_whole: bool,
}

impl<W: Wire> Asking<W> {
    ghost use Rattle.branch_asking.specs.Errands.{LendsErrand};

    /// The job, before anything was done for it, which is asked so. One for whose request there is no memory is over.
    pub fn new(alloc: Global, manner: Manner, job: Job, errand: Errand) -> Asking<W>
        ensures manner { result.manner ≡ manner }
        ensures job { result.job ≡ job }
        ensures found { result.addresses.found ≡ [] }
        ensures fresh { (result.tried ≡ []) × (result.attempt.stream ≡ None) }
        ensures over { IfSome result.end (λ end. end ≡ ExchangeEnd.NoMemory) }
    {
        let (request, end) = match request_of(alloc, manner, &job) {
            Ok(request) => (request, None),
            Err(_) => (Bytes::new(alloc), Some(ExchangeEnd::NoMemory)),
        };
        Asking {
            manner,
            job,
            addresses: Addresses::new(alloc),
            attempt: Attempt::new(alloc, manner.framing, request),
            end,
            errand,
            tried: Log::new(),
        }
    }

    pub fn job(&self) -> &Job
        ensures { result.now ≡ self.now.job }
    {
        &self.job
    }

    /// Whether it ended.
    pub fn is_over(&self) -> bool
        ensures { result ≡ is_some self.now.end }
    {
        self.end.is_some()
    }

    /// What ended it, as far as its exchange tells.
    pub fn cause(&self) -> Cause
        ensures { result ≡ option_map_or cause_of_end self.now.end NotWanted }
    {
        match &self.end {
            Some(end) => cause_of_end(end),
            None => Cause::NotWanted,
        }
    }

    /// The status of its reply.
    pub fn status(&self) -> Option<u16>
        ensures { result ≡ option_and_then status_of_end self.now.end }
    {
        status_of_end(self.end.as_ref()?)
    }

    /// What its loop notes of it.
    pub fn errand(&self) -> &Errand {
        &self.errand
    }

    /// The same, to be noted.
    pub fn errand_mut(&mut self) -> &mut Errand
        ensures* { sem 𝓛 (LendsErrand W.row W.Wire self.entry result) }
    {
        &mut self.errand
    }

    /// Its exchange, and the stream that it goes over.
    pub fn attempt(&self) -> &Attempt<W>
        ensures { result.now ≡ self.now.attempt }
    {
        &self.attempt
    }

    /// Whether it goes over a stream. One that does not has no address yet.
    pub fn has_stream(&self) -> bool
        ensures { result ≡ is_some self.now.attempt.stream }
    {
        self.attempt.has_stream()
    }

    /// Something became possible at its stream; whether that may be told of another's, too, that had the token before.
    pub fn report(&mut self, ready: Ready, is_shared: bool)
        ensures noted { self.new ≡ record self.old { attempt = noted_attempt ready self.old.attempt } }
        ensures on { AsksOn (asked_for self.old) (asked_for self.new) }
    {
        self.errand.note_ready(ready, is_shared);
        self.attempt.report(ready);
    }

    /// Watches its stream by that token. False where it has none, or can't.
    pub fn watch<N: Network<W>>(&mut self, net: &mut N, token: usize) -> bool
        ensures noted { self.new ≡ record self.old { attempt = watched_attempt self.new.attempt.watched self.old.attempt } }
        ensures on { AsksOn (asked_for self.old) (asked_for self.new) }
        ensures net { N.value net.new ≡ N.value net.old }
    {
        self.attempt.watch(net, token)
    }

    /// What was written for it begins its request, and nothing was written to a stream that was given up, or to one
    /// that has not taken a byte. It does nothing.
    pub fn begun_law(&self)
        ensures begun { BeginsRequest self.now.manner (asked_for self.now) }
        ensures untouched { self.now.attempt.connected ≡ false → got_by self.now.attempt.stream ≡ [] }
    {
        self.attempt.unsent_law();
    }

    /// Until when its stream has to take a byte, where another address follows. None once it took one.
    pub fn until(&self) -> Option<u64>
        ensures { result ≡ until_of self.now.attempt }
    {
        self.attempt.until()
    }

    /// Its stream has to take a byte until then, where another address follows.
    pub fn set_until(&mut self, until: Option<u64>)
        ensures noted { self.new ≡ record self.old { attempt = timed_attempt until self.old.attempt } }
        ensures on { AsksOn (asked_for self.old) (asked_for self.new) }
    {
        self.attempt.set_until(until);
    }

    /// By what token its stream is watched, and whether for room to write too.
    pub fn watched(&self) -> Option<(usize, bool)>
        ensures { result ≡ self.now.attempt.watched }
    {
        self.attempt.watched()
    }

    /// Whether it has not ended, and nothing is left to be done over its stream, which is watched: nothing may be read,
    /// or it has not taken a byte; and where its request was not written whole it is watched for room to write, and
    /// takes no more.
    pub fn rests(&self) -> bool
        ensures { result ≡ rests_asked self.now }
    {
        self.end.is_none() && self.attempt.rests()
    }

    /// Whether there is an address that is to be tried.
    pub fn has_others(&self) -> bool
        ensures { IsFalse result ↔ (next_of self.now.addresses ≡ []) }
    {
        self.addresses.has_more()
    }

    /// Whether its job's address is no name. It is to be tried then.
    pub fn has_address(&mut self) -> bool
        ensures manner { self.new.manner ≡ self.old.manner }
        ensures job { self.new.job ≡ self.old.job }
        ensures found { self.new.addresses.found ≡ self.old.addresses.found }
        ensures end { self.new.end ≡ self.old.end }
        ensures on { AsksOn (asked_for self.old) (asked_for self.new) }
        ensures streams { HasStreamsOf (asked_for self.old) (asked_for self.new) }
        ensures parsed { HasParsed self.old.job.job.address result self.old.addresses self.new.addresses }
    {
        self.addresses.parse(self.job.address())
    }

    /// These addresses were found for the name. They are to be tried, if it is that of its job.
    pub fn find(&mut self, name: &str, found: VecDeque<SocketAddr>)
        ensures manner { self.new.manner ≡ self.old.manner }
        ensures job { self.new.job ≡ self.old.job }
        ensures own { (self.new ≡ self.old) ⊎ (self.old.job.job.address ≡ name.now) }
        ensures end { self.new.end ≡ self.old.end }
        ensures on { AsksOn (asked_for self.old) (asked_for self.new) }
        ensures streams { HasStreamsOf (asked_for self.old) (asked_for self.new) }
        ensures found { Finds name.now found.items self.old self.new }
    {
        if name == self.job.address() {
            self.addresses.find(found);
        }
    }

    /// Writes what can be written of the request, and reads what can be read of the reply.
    pub fn step(&mut self) -> Progress
        ensures manner { self.new.manner ≡ self.old.manner }
        ensures job { self.new.job ≡ self.old.job }
        ensures found { self.new.addresses.found ≡ self.old.addresses.found }
        ensures on { AsksOn (asked_for self.old) (asked_for self.new) }
        ensures streams { HasStreamsOf (asked_for self.old) (asked_for self.new) }
        ensures over { (result ≡ Progress.Ended) ↔ (is_some self.new.end ≡ true) }
    {
        if self.end.is_some() {
            return Progress::Ended;
        }
        let step = self.attempt.step();
        self.attempt.unsent_law();
        match step {
            Step::Waits => Progress::Waits,
            Step::More => Progress::More,
            Step::Refused(kind) => Progress::Refused(kind),
            Step::Ended(end) => {
                self.end = Some(end);
                Progress::Ended
            }
        }
    }

    /// It is over. One that had not ended is lost by this, whatever was read; None for want of memory.
    pub fn lose(&mut self, loss: Option<Loss>)
        ensures manner { self.new.manner ≡ self.old.manner }
        ensures job { self.new.job ≡ self.old.job }
        ensures found { self.new.addresses.found ≡ self.old.addresses.found }
        ensures on { AsksOn (asked_for self.old) (asked_for self.new) }
        ensures streams { HasStreamsOf (asked_for self.old) (asked_for self.new) }
        ensures kept { (end : ExchangeEnd) → self.old.end ≡ Some end → self.new ≡ self.old }
        ensures lost { self.old.end ≡ None → MatchOption loss (self.new.end ≡ Some ExchangeEnd.NoMemory)
            (λ loss. self.new.end ≡ Some (ExchangeEnd.Lost loss)) }
    {
        if self.end.is_none() {
            self.end = Some(loss.map_or(ExchangeEnd::NoMemory, ExchangeEnd::Lost));
        }
    }

    /// What is to be recorded of it. One that has not ended is lost.
    pub fn conclude(&mut self, alloc: Global) -> Concluded
        ensures manner { self.new.manner ≡ self.old.manner }
        ensures job { self.new.job ≡ self.old.job }
        ensures found { self.new.addresses.found ≡ self.old.addresses.found }
        ensures on { AsksOn (asked_for self.old) (asked_for self.new) }
        ensures streams { HasStreamsOf (asked_for self.old) (asked_for self.new) }
        ensures fair { IsFair self.new.manner (ended_value (asked_for self.new) result.outcome) }
        ensures whole { IsTrue result.is_whole → All (IsWhole self.new.manner) (share_of (ended_value (asked_for self.new) result.outcome)) }
        ensures tells { (end : ExchangeEnd) → self.old.end ≡ Some end
            → IfSome result.outcome (λ outcome. outcome_of_asked (asked_of end) ≡ Some outcome) }
    {
        let is_alone = self.attempt.is_alone();
        match mem::replace(&mut self.end, Some(ExchangeEnd::NoMemory)) {
            Some(ExchangeEnd::Reply(reply)) => {
                let stays = is_alone && !reply.closes;
                let outcome = outcome_of(alloc, Asked::Reply(reply));
                Concluded {
                    is_whole: stays && outcome.is_some(),
                    outcome,
                }
            }
            Some(end) => Concluded {
                outcome: outcome_of(alloc, end.asked()),
                is_whole: false,
            },
            None => Concluded {
                outcome: outcome_of(alloc, Asked::Lost),
                is_whole: false,
            },
        }
    }
}

impl<W: Wire + Drop> Asking<W> {
    /// It goes over a stream to the next of its addresses from that moment on; unless it ended, or its stream took a
    /// byte. False where there is no other address.
    pub fn connect<N: Network<W>>(&mut self, net: &mut N, moment: u64) -> bool
        ensures manner { self.new.manner ≡ self.old.manner }
        ensures job { self.new.job ≡ self.old.job }
        ensures found { self.new.addresses.found ≡ self.old.addresses.found }
        ensures on { AsksOn (asked_for self.old) (asked_for self.new) }
        ensures notes { NotesStream result self.old self.new }
        ensures streams { Connects (N.value net.old) (N.value net.new) (asked_for self.old) (asked_for self.new) }
    {
        if self.attempt.is_connected() || self.end.is_some() {
            return true;
        }
        let Some(address) = self.addresses.next() else {
            return false;
        };
        self.errand.goes_over(false);
        // further requests may go over one that is kept
        let length = if self.manner.keeps {
            usize::MAX
        } else {
            self.attempt.left()
        };
        let stream = Backend::connect(net, address, length, moment);
        if let Some(before) = self.attempt.connect(stream) {
            self.tried = self.tried.and(&before, &true);
            net.close(before.into_wire());
        }
        true
    }

    /// It goes over this stream from now on, over which jobs of its address went before; if it has none yet, nothing is
    /// there to be read, and the stream takes some of the request at once. Else the stream is given back.
    pub fn reuse(&mut self, stream: Backend<W>) -> Option<Backend<W>>
        requires { IsReadyFor self.old.manner self.old.job.job.address stream.stream }
        ensures manner { self.new.manner ≡ self.old.manner }
        ensures job { self.new.job ≡ self.old.job }
        ensures found { self.new.addresses.found ≡ self.old.addresses.found }
        ensures on { AsksOn (asked_for self.old) (asked_for self.new) }
        ensures goes { result ≡ None → GoesOverAgain stream.stream (asked_for self.old) (asked_for self.new) }
        ensures back { IfSome result (λ back. (self.new ≡ self.old) × HasLookedAt stream.stream back.stream) }
    {
        if self.end.is_some() {
            return Some(stream);
        }
        let back = self.attempt.reuse(stream);
        if back.is_none() {
            self.errand.goes_over(true);
        }
        back
    }

    /// The job, what was noted of it, and its stream, if it has one, of which the job's share has ended with this
    /// outcome.
    pub fn into_parts(self, outcome: &Option<Outcome>) -> (Job, Errand, Option<Backend<W>>)
        ensures job { result.0 ≡ self.job }
        ensures stream { map (λ b. b.stream) (option_to_list result.2) ≡ left_by (asked_for self) outcome.now }
    {
        let mut stream = self.attempt.into_stream();
        if let Some(stream) = &mut stream {
            stream.end_share(&self.job, outcome);
        }
        (self.job, self.errand, stream)
    }
}

/// The request that asks for the job.
fn request_of(alloc: Global, manner: Manner, job: &Job) -> Result<Bytes, AllocError>
    ensures { IfOk result (λ bytes. bytes ≡ request_of manner job.now.job) }
{
    let ask = BranchAsk {
        address: job.address(),
        path: job.path(),
        remaining: job.remaining(),
        request_id: job.request_id(),
        body: job.body(),
        keeps: manner.keeps,
    };
    passing_request(alloc, &ask, &job.passed())
}
