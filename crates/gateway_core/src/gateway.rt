ghost use Rattle.std.specs.Prelude.{◌≡◌, ◌==◌, ◌∷◌, ◌++◌, ◌<◌, ◌≤◌, [], Err, IfOk, IfErr, IfSome, None, OnErr, OnOk, Some, false, not, ℕ, List, length, option_map, option_to_list, true, is_some, slice_get};
ghost use Rattle.connect_codec.specs.declared.answer.Outcome.{Outcome as Outcomes};
ghost use Rattle.std.specs.Option.{option_map_or};
ghost use Rattle.gateway_theory.specs.Held.{next_held};
ghost use Rattle.gateway_theory.specs.Gateway.{conn_count, jobs_of, next_reply, open_count, open_of, untaken_of, with_jobs};
ghost use Rattle.gateway_theory.specs.Values.{HeldConnection, moment_after, shown};
ghost use Rattle.gateway_theory.specs.Serving.{TakesSome, WouldBegin, Breaks, CountsCalls, HasFewCalls, IsServing, NotListening, Keeps, KeepsBut, TakesOnly, TellsStep};
ghost use Rattle.gateway_theory.specs.Refused.{RefusesOpening};
ghost use Rattle.gateway_theory.specs.Tally.{tally_of};
ghost use Rattle.gateway_model.specs.Past.{is_due};
ghost use Rattle.gateway_model.specs.Starts.{Placed};
ghost use Rattle.gateway_model.specs.Events.{most_open, Occurs};
ghost use Rattle.gateway_model.specs.declared.event.Event.TheVariants.{BranchResult, Closing, Drain, HangUp, Moment};
ghost use Rattle.gateway_theory.specs.Task.{HandedJob};
ghost use Rattle.gateway_theory.specs.Told.{AddsEvent, AddsOpening, HandsJobs, HandsReply, IsWanted, LeavesLived, LeavesReplied, OpensFew, TakesBytes, TakesEvent, TakesOneOf, TakesOpening, TellsTook};
ghost use Rattle.gateway_model.specs.Known.{IsKnown};
ghost use Rattle.gateway_model.specs.History.{History, no_history};
ghost use Rattle.gateway_theory.specs.Served.{Lives, Served};
ghost use Rattle.gateway_core.specs.Whole.{AreNumbered, IsWithout, call_kept, is_gone_at};

use crate::broadcast::end_calls;
use call_plan::Plans;
use connect_codec::Outcome;
use gateway_connection::{Connection, Job, Shared};
use gateway_model::{CallId, ConnId, Seen};
use gateway_replies::{Reply, ReplyHook, Stock};
use gateway_theory::request_laws::request_laws;
use gateway_theory::{OpenError, StepFault, Tally, Took, Trigger};
use http_pieces::laws::fresh_law;
use std::alloc::{AllocError, Global};
use std::collections::BTreeMap;
use std::marker::Model;

/// Connections that may be open at once.
const MOST_OPEN: usize = 64;

/// Openings that may succeed.
const MOST_OPENINGS: u64 = 1 << 56;

/// Moments above this one count as it.
const LAST_MOMENT: u64 = 1 << 62;

/// The gateway: connections whose requests are answered by asking backends. It does no input or output and reads no
/// clock.
#[derive(Drop)]
pub struct Core<H> {
    shared: Shared<H>,
    /// By number: those that are open, and those that are closed while a branch of a call of theirs is out.
    conns: BTreeMap<u64, Connection>,
    /// How many connections were opened: the number of the next.
    opened: u64,
    /// How many are open.
    open: usize,
    /// How results were seen.
    tally: Tally,
}

impl<H> Model for Core<H> {
    ghost use Rattle.gateway_theory.specs.Values.{GatewayValue};
    ghost use Rattle.gateway_core.specs.Whole.{IsWhole, gateway_of};

    ghost Value = { GatewayValue };

    ghost view = { λ c. gateway_of c.shared c.conns.entries c.opened c.tally };

    ghost invariant = { λ c. IsWhole c.shared c.conns.entries c.opened c.open c.tally };
}

impl<H: ReplyHook + Drop> Core<H> {
    /// A gateway that serves these plans, with no connection.
    pub fn new(alloc: Global, plans: Plans) -> Result<Core<H>, AllocError>
        ensures plans { IfOk result (λ core. core.plans ≡ plans) }
        ensures tally { IfOk result (λ core. core.tally ≡ tally_of []) }
        ensures stands { IfOk result (λ core. Served core no_history) }
        ensures lives { IfOk result (λ core. Lives core no_history []) }
    {
        Ok(Core {
            shared: Shared::new(alloc, plans)?,
            conns: BTreeMap::new(alloc),
            opened: 0,
            open: 0,
            tally: Tally::new(),
        })
    }

    /// Opens a connection, each of whose calls gets one of these hooks. A refusal is the first that applies of `Full`,
    /// `Exhausted` and `Memory`; it changes nothing, and the hooks come back.
    pub fn open_conn(&mut self, stock: Stock<H>) -> Result<ConnId, (Stock<H>, OpenError)>
        ensures stands { TakesOpening result self.old self.new }
        ensures adds { AddsOpening result self.old self.new }
        ensures few { OpensFew result self.old }
        ensures number { IfOk result (λ conn. conn ≡ conn_count self.old) }
        ensures refused { IfErr result (λ e. RefusesOpening e.1 self.old) }
        ensures back { IfErr result (λ e. e.0 ≡ stock) }
        ensures unchanged { OnErr result (self.new ≡ self.old) }
        ensures keeps { Keeps (λ c. false) self.old self.new }
    {
        if self.open >= MOST_OPEN {
            return Err((stock, OpenError::Full));
        }
        if self.opened >= MOST_OPENINGS {
            return Err((stock, OpenError::Exhausted));
        }
        fresh_law();
        let number = self.opened;
        let conn = Connection::new(self.shared.alloc, number);
        let Ok(_) = self.conns.insert(number, conn) else {
            return Err((stock, OpenError::Memory));
        };
        if let Err(stock) = self.shared.contexts.open(number, stock) {
            self.conns.remove(&number);
            return Err((stock, OpenError::Memory));
        }
        self.opened += 1;
        self.open += 1;
        Ok(ConnId::of(number))
    }

    /// Takes bytes of a connection's stream, at most up to the end of a request, and answers how many.
    pub fn feed(&mut self, conn: ConnId, bytes: &[u8]) -> Result<usize, StepFault>
        ensures stands { TakesBytes conn bytes.now result self.old self.new }
        ensures takes { IfOk result (TakesSome (length bytes.now)) }
        ensures one { TakesOneOf conn bytes.now result self.old }
        ensures tells { TellsStep conn self.old self.new result }
        ensures begins { result ≡ Err StepFault.Exhausted → WouldBegin conn bytes.now self.old }
        ensures listens { OnOk result (NotListening conn self.new → ⊥) }
        ensures counts { CountsCalls self.old self.new }
        ensures keeps { Keeps (λ c. c == conn) self.old self.new }
    {
        request_laws();
        let Some(held) = self.conns.get_mut(&conn.number()) else {
            return Err(StepFault::Gone);
        };
        held.feed(&mut self.shared, bytes)
    }

    /// The peer of a connection hung up.
    pub fn hang_up(&mut self, conn: ConnId) -> Result<(), StepFault>
        ensures stands { TakesEvent (HangUp conn) self.old self.new }
        ensures adds { AddsEvent (HangUp conn) self.old self.new }
        ensures tells { TellsStep conn self.old self.new result }
        ensures begins { result ≡ Err StepFault.Exhausted → ⊥ }
        ensures keeps { Keeps (λ c. c == conn) self.old self.new }
    {
        let Some(held) = self.conns.get_mut(&conn.number()) else {
            return Err(StepFault::Gone);
        };
        held.hang_up(&mut self.shared)
    }

    /// A moment has come, in milliseconds: the calls end whose deadlines it has reached, or that of a branch of theirs
    /// which is out. True where a connection broke in the step.
    pub fn moment(&mut self, moment: u64) -> bool
        ensures stands { TakesEvent (Moment moment) self.old self.new }
        ensures adds { AddsEvent (Moment moment) self.old self.new }
        ensures broke { Breaks self.old self.new result }
        ensures keeps { Keeps (λ c. true) self.old self.new }
    {
        self.shared.moment = self.shared.moment.max(moment.min(LAST_MOMENT));
        if !self.shared.contexts.is_due(self.shared.moment) {
            return false;
        }
        let trigger = Trigger::Reached(self.shared.moment);
        end_calls(&mut self.shared, &mut self.conns, &trigger)
    }

    /// The drain has begun. True where a connection broke in the step.
    pub fn drain(&mut self) -> bool
        ensures stands { TakesEvent Drain self.old self.new }
        ensures adds { AddsEvent Drain self.old self.new }
        ensures broke { Breaks self.old self.new result }
        ensures keeps { Keeps (λ c. true) self.old self.new }
    {
        end_calls(&mut self.shared, &mut self.conns, &Trigger::Drained)
    }

    /// Closes a connection, and answers whether it was open.
    pub fn close(&mut self, conn: ConnId) -> bool
        ensures stands { TakesEvent (Closing conn) self.old self.new }
        ensures adds { AddsEvent (Closing conn) self.old self.new }
        ensures closed { result ≡ (shown self.old).is_open conn }
        ensures keeps { KeepsBut (λ c. c == conn) (λ c. false) [] self.old self.new }
    {
        let number = conn.number();
        let Some(held) = self.conns.get_mut(&number) else {
            return false;
        };
        if held.is_closed() {
            return false;
        }
        held.close(&mut self.shared);
        remove_gone(&mut self.conns, number);
        self.open -= 1;
        true
    }

    /// A branch of a call ends with that outcome. Where memory is refused to what this starts or decides, the
    /// connection breaks.
    pub fn result(&mut self, call: &CallId, branch: u32, outcome: Outcome) -> Took
        ensures stands { TakesEvent (BranchResult call.now.conn call.now.request branch outcome) self.old self.new }
        ensures adds { AddsEvent (BranchResult call.now.conn call.now.request branch outcome) self.old self.new }
        ensures tells { TellsTook call.now branch result self.old self.new }
        ensures keeps { KeepsBut (λ c. false) (λ c. c == call.now.conn) (result.seen ∷ []) self.old self.new }
    {
        let number = call.conn.number();
        let Some(held) = self.conns.get_mut(&number) else {
            self.tally.add(Seen::Unknown);
            return Took::unknown();
        };
        let took = held.result(&mut self.shared, call.request, branch, outcome);
        remove_gone(&mut self.conns, number);
        self.tally.add(took.seen);
        took
    }

    /// A worker found no memory for what a branch ended with, whatever that was.
    pub fn starved(&mut self, call: &CallId, branch: u32) -> Took
        ensures stands { (outcome : Outcomes)
            → TakesEvent (BranchResult call.now.conn call.now.request branch outcome) self.old self.new }
        ensures adds { (outcome : Outcomes)
            → AddsEvent (BranchResult call.now.conn call.now.request branch outcome) self.old self.new }
        ensures tells { TellsTook call.now branch result self.old self.new }
        ensures keeps { KeepsBut (λ c. false) (λ c. c == call.now.conn) (result.seen ∷ []) self.old self.new }
    {
        let number = call.conn.number();
        let Some(held) = self.conns.get_mut(&number) else {
            self.tally.add(Seen::Unknown);
            return Took::unknown();
        };
        let took = held.starved(&mut self.shared, call.request, branch);
        remove_gone(&mut self.conns, number);
        self.tally.add(took.seen);
        took
    }

    /// Hands out the next job, in order of start.
    pub fn take_job(&mut self) -> Option<Job>
        ensures stands { HandsJobs (option_to_list (option_map (λ j. j.job) result)) self.old self.new }
        ensures lives { LeavesLived (option_to_list (option_map (λ j. j.job) result)) self.old self.new }
        ensures first { jobs_of self.old ≡ option_to_list (option_map (λ j. j.job) result) ++ jobs_of self.new }
        ensures none { result ≡ None → jobs_of self.old ≡ [] }
        ensures wanted { (j : HandedJob) → result ≡ Some j → IsWanted j.job.call self.old j.wanted }
        ensures rest { self.new ≡ with_jobs (jobs_of self.new) self.old }
    {
        let Some(job) = self.shared.jobs.take() else {
            return None;
        };
        let wanted = is_live(&self.conns, &job.call());
        Some(job.handed(wanted))
    }

    /// Hands out the next reply of a connection, in order of its requests.
    pub fn take_reply(&mut self, conn: ConnId) -> Option<Reply>
        ensures stands { HandsReply conn result self.old self.new }
        ensures lives { LeavesReplied conn result self.old self.new }
        ensures first { untaken_of conn self.old ≡ option_to_list (option_map (λ r. r.entry) result) ++ untaken_of conn self.new }
        ensures its { IfSome result (λ r. r.id ≡ next_reply conn self.old) }
        ensures none { result ≡ None → untaken_of conn self.old ≡ [] }
        ensures only { TakesOnly conn self.old self.new }
    {
        let Some(held) = self.conns.get_mut(&conn.number()) else {
            return None;
        };
        held.take_reply()
    }

    /// At most 64 connections are open, and no more than 8 requests of one that is not broken wait for their replies.
    /// It does nothing.
    pub fn bounds_law(&self)
        ensures few { open_count self.now ≤ most_open }
        ensures calls { HasFewCalls self.now }
    {
        let _ = &self.opened;
    }

    /// What is known of the gateway by the events that it stands for, whichever they are. It does nothing.
    pub fn known_law(&self)
        ensures known { (h : History) (occurred : List Placed) → Served self.now h → Occurs self.now.plans h.opened h.events occurred
            → IsKnown (shown self.now) h occurred }
    {
        let _ = &self.opened;
    }

    /// How many jobs wait to be taken.
    pub fn waiting_jobs(&self) -> usize
        ensures { result ≡ length (shown self.now).waiting }
    {
        self.shared.jobs.len()
    }

    /// The job that is to be taken once so many others were, if it waits.
    pub fn waiting_job(&self, place: usize) -> Option<&Job>
        ensures { option_map (λ job. job.now.job) result ≡ slice_get (shown self.now).waiting place }
    {
        self.shared.jobs.get(place)
    }

    /// The least deadline of the undecided calls, and of their branches that are out.
    pub fn next_deadline(&self) -> Option<u64>
        ensures least { result ≡ (shown self.now).deadline }
        // a moment that comes next decides a call exactly if this is reached then
        ensures quiet { (moment : ℕ)
            → (shown self.now).ends_calls moment ≡ is_due (moment_after self.now.moment moment) result }
    {
        self.shared.contexts.next_deadline()
    }

    /// How the results that came were seen, those of `starved` among them.
    pub fn tally(&self) -> Tally
        ensures { result ≡ self.now.tally }
    {
        self.tally
    }

    /// Whether the connection no longer brings requests or replies: it is unknown, closed or broken, or its stream has
    /// ended and no call of it is undecided.
    pub fn ended(&self, conn: ConnId) -> bool
        ensures { result ≡ (shown self.now).is_ended conn }
    {
        match self.conns.get(&conn.number()) {
            Some(held) => held.is_closed() || held.is_ended(),
            None => true,
        }
    }

    /// How many replies of the connection can be taken.
    pub fn untaken(&self, conn: ConnId) -> usize
        ensures { result ≡ length ((shown self.now).untaken conn) }
    {
        match self.conns.get(&conn.number()) {
            Some(held) => held.untaken(),
            None => 0,
        }
    }

    /// How many requests of the connection were read so far; 0 where it is not open.
    pub fn requests(&self, conn: ConnId) -> u64
        ensures { result ≡ option_map_or (λ (k : HeldConnection). (next_held k).request) (open_of conn self.now) 0 }
    {
        match self.conns.get(&conn.number()) {
            Some(held) if !held.is_closed() => held.next_id().request,
            _ => 0,
        }
    }

    /// Whether each request of the connection has its reply, so that none of its calls is undecided. True where there
    /// is no such connection.
    pub fn is_idle(&self, conn: ConnId) -> bool
        ensures { result ≡ (shown self.now).is_idle conn }
    {
        match self.conns.get(&conn.number()) {
            Some(held) => held.is_closed() || held.is_idle(),
            None => true,
        }
    }

    /// Whether the connection is open and broken: memory was refused in a step of it.
    pub fn is_broken(&self, conn: ConnId) -> bool
        ensures { result ≡ (shown self.now).is_broken conn }
    {
        match self.conns.get(&conn.number()) {
            Some(held) => held.is_broken(),
            None => false,
        }
    }

    /// Whether the answer to a job of this call is wanted: its call can still be decided.
    pub fn is_wanted(&self, call: &CallId) -> bool
        ensures { IsWanted call.now self.now result }
    {
        is_live(&self.conns, call)
    }

    /// How many branches of the call are out.
    pub fn branches_out(&self, call: &CallId) -> u32
        ensures { result ≡ (shown self.now).outs call.now }
    {
        match self.conns.get(&call.conn.number()) {
            Some(held) => held.branches_out(call.request),
            None => 0,
        }
    }
}

/// Whether the call can still be decided.
fn is_live(conns: &BTreeMap<u64, Connection>, call: &CallId) -> bool
    requires { AreNumbered conns.now.entries }
    ensures { result ≡ is_some (call_kept call.now conns.now.entries).live }
{
    match conns.get(&call.conn.number()) {
        Some(held) => held.is_live(call.request),
        None => false,
    }
}

/// Takes the connection of that number out, if nothing comes back to it any more.
fn remove_gone(conns: &mut BTreeMap<u64, Connection>, number: u64)
    ensures { IsWithout (is_gone_at number conns.old.entries) number conns.old.entries conns.new.entries }
{
    let Some(held) = conns.get(&number) else {
        return;
    };
    if held.is_gone() {
        conns.remove(&number);
    }
}
