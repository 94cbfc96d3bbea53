ghost use Rattle.gateway_model.specs.Known.{IsKnown, is_whole};
ghost use Rattle.gateway_theory.specs.Told.{TellsTook};
ghost use Rattle.gateway_theory.specs.Serving.{CountsCalls, Keeps, KeepsBut, Breaks, HasFewCalls, TakesOnly, TellsStep};
ghost use Rattle.gateway_theory.specs.Gateway.{conn_count, is_open_conn, jobs_of, kept_record, next_reply, open_count, outs_of, untaken_of, with_jobs};
ghost use Rattle.gateway_theory.specs.Values.{shown};
ghost use Rattle.std.specs.Prelude.{◌≡◌, ◌==◌, ◌+◌, ◌<◌, ◌≤◌, ◌^◌, ◌∷◌, ◌++◌, [], Err, IfErr, IfOk, IfSome, List, MatchResult, None, OnErr, OnOk, Some, false, true, length, option_map, option_to_list};
ghost use Rattle.gateway_model.specs.declared.id.CallId.{CallId};
ghost use Rattle.connect_codec.specs.declared.answer.Outcome.{Outcome as Outcomes};
ghost use Rattle.gateway_model.specs.CallRecord.{CallRecord};
ghost use Rattle.gateway_model.specs.Events.{Occurs, most_open};
ghost use Rattle.gateway_model.specs.declared.event.Event.TheVariants.{BranchResult, Closing, Drain, HangUp, Moment, Piece};
ghost use Rattle.gateway_model.specs.Past.{ArrivedCall, call, marked};
ghost use Rattle.gateway_model.specs.Record.{is_decided, is_lawful};
ghost use Rattle.gateway_theory.specs.Refused.{RefusesOpening};
ghost use Rattle.gateway_theory.specs.Served.{Served};
ghost use Rattle.gateway_model.specs.Starts.{Placed, occurrences};
ghost use Rattle.gateway_model.specs.History.{History, no_history};
ghost use Rattle.backend_pool.specs.declared.next_reply.NextReply.{NextReply};
ghost use Rattle.backend_pool.specs.Book.{book_value, BookStands, BookValue, GivesJob, HandsJobs, HandsReply, IsReached, job_list, most_total, OpensFew, reply_given, TakesEvent, TakesOpening, TellsPiece, totals_of};

use crate::counter::{Blanks, Counter, LedgerFull, Shares, Totals};
use crate::next_reply::NextReply;
use call_plan::Plans;
use connect_codec::Outcome;
use gateway_core::{
    CallId, ConnId, Core, Job, OpenError, ReplyHook, StepFault, Stock, Tally, Took, deliver,
};
use gateway_theory::served_laws::{calls_law, known_law};
use std::alloc::{AllocError, Global};
use std::marker::Model;
use std::sync::ledger::{Ledger, Share};

/// The core with its totals: of the bytes that came, the jobs that were taken, and the results.
///
/// Each book stands for some list of events. Its calls `opening`, `piece`, `hang_up`, `moment`, `result`, `starved`,
/// `drain` and `closing` are one event each; `take_job` and `take_reply` are none. L, J and K are the ledgers of bytes, jobs
/// and results.
pub struct Book<H, L: Ledger, J: Ledger, K: Ledger> {
    core: Core<H>,
    bytes: Counter<L>,
    jobs: Counter<J>,
    results: Counter<K>,
}

// by hand, so that a drop is one call, where a derived one is written out at each return
impl<H: Drop, L: Ledger, J: Ledger, K: Ledger> Drop for Book<H, L, J, K> {
    fn drop(self) {
        let Book {
            core: _,
            bytes: _,
            jobs: _,
            results: _,
        } = self;
    }
}

impl<H, L: Ledger, J: Ledger, K: Ledger> Model for Book<H, L, J, K> {
    ghost Value = { BookValue };

    ghost view = { λ b. book_value b.core b.bytes b.jobs b.results };

    ghost invariant = { λ b. IsReached (book_value b.core b.bytes b.jobs b.results) };
}

impl<H: ReplyHook + Drop, L: Ledger, J: Ledger, K: Ledger> Book<H, L, J, K> {
    /// A core that serves these plans, with no connection and totals of 0, and the whole of each ledger.
    pub fn new(
        alloc: Global,
        plans: Plans,
        blanks: Blanks,
    ) -> Result<(Book<H, L, J, K>, Shares<L, J, K>), AllocError>
        requires names { (blanks.bytes.name ≡ L.name) × (blanks.jobs.name ≡ J.name) × (blanks.results.name ≡ K.name) }
        requires parts { (blanks.bytes.parts ≡ L.parts) × (blanks.jobs.parts ≡ J.parts)
            × (blanks.results.parts ≡ K.parts) }
        ensures stands { IfOk result (λ r. BookStands r.0 no_history) }
        ensures plans { IfOk result (λ r. r.0.core.plans ≡ plans) }
        ensures whole { IfOk result (λ r. (r.1.bytes.parts ≡ L.parts) × (r.1.jobs.parts ≡ J.parts)
            × (r.1.results.parts ≡ K.parts)) }
        ensures amounts { IfOk result (λ r. (r.1.bytes.amount ≡ 0) × (r.1.jobs.amount ≡ 0)
            × (r.1.results.amount ≡ 0)) }
    {
        let core = Core::new(alloc, plans)?;
        let (bytes_book, bytes) = blanks.bytes.open::<L>();
        let (jobs_book, jobs) = blanks.jobs.open::<J>();
        let (results_book, results) = blanks.results.open::<K>();
        let book = Book {
            core,
            bytes: Counter::new(bytes_book),
            jobs: Counter::new(jobs_book),
            results: Counter::new(results_book),
        };
        let shares = Shares {
            bytes,
            jobs,
            results,
        };
        Ok((book, shares))
    }

    /// Opens a connection, each of whose calls gets one of these hooks. A refusal is the first that applies of `Full`,
    /// `Exhausted` and `Memory`; it changes nothing, and the hooks come back.
    pub fn opening(&mut self, stock: Stock<H>) -> Result<ConnId, (Stock<H>, OpenError)>
        ensures stands { TakesOpening result self.old self.new }
        ensures few { OpensFew result self.old }
        ensures number { IfOk result (λ conn. conn ≡ conn_count self.old.core) }
        ensures refused { IfErr result (λ e. RefusesOpening e.1 self.old.core) }
        ensures back { IfErr result (λ e. e.0 ≡ stock) }
        ensures unchanged { OnErr result (self.new ≡ self.old) }
        ensures counts { self.new ≡ record self.old { core = self.new.core } }
        ensures keeps { Keeps (λ c. false) self.old.core self.new.core }
    {
        self.core.open_conn(stock)
    }

    /// Feeds a whole piece of a connection's stream, and adds its length to the total of bytes, also where it is
    /// `Gone`.
    pub fn piece(
        &mut self,
        conn: ConnId,
        bytes: &[u8],
        mine: &mut Share<L>,
    ) -> Result<Result<(), StepFault>, LedgerFull>
        requires { 0 < mine.old.parts }
        ensures stands { OnOk result (TakesEvent (Piece conn bytes.now) self.old self.new) }
        ensures tells { IfOk result (λ step. TellsPiece conn bytes.now self.old.core self.new.core step) }
        ensures counts { OnOk result
            (self.new ≡ record self.old { core = self.new.core; bytes = self.old.bytes + length bytes.now }) }
        ensures full { MatchResult result (λ _. self.old.bytes + length bytes.now ≤ most_total)
            (λ _. (most_total < self.old.bytes + length bytes.now) × (self.new ≡ self.old)) }
        ensures begun { OnOk result (CountsCalls self.old.core self.new.core) }
        ensures keeps { OnOk result (Keeps (λ c. c == conn) self.old.core self.new.core) }
        ensures share { MatchResult result (λ _. mine.new.amount ≡ mine.old.amount + length bytes.now)
            (λ _. mine.new.amount ≡ mine.old.amount) }
        ensures parts { mine.new.parts ≡ mine.old.parts }
    {
        let length = bytes.len() as u64;
        if !self.bytes.has_room(length) {
            return Err(LedgerFull);
        }
        self.bytes.add(mine, length);
        Ok(deliver(&mut self.core, conn, bytes))
    }

    /// The peer of a connection hung up.
    pub fn hang_up(&mut self, conn: ConnId) -> Result<(), StepFault>
        ensures stands { TakesEvent (HangUp conn) self.old self.new }
        ensures tells { TellsStep conn self.old.core self.new.core result }
        ensures begins { result ≡ Err StepFault.Exhausted → ⊥ }
        ensures counts { self.new ≡ record self.old { core = self.new.core } }
        ensures keeps { Keeps (λ c. c == conn) self.old.core self.new.core }
    {
        self.core.hang_up(conn)
    }

    /// A moment has come, in milliseconds. True where a connection broke in the step.
    pub fn moment(&mut self, moment: u64) -> bool
        ensures stands { TakesEvent (Moment moment) self.old self.new }
        ensures broke { Breaks self.old.core self.new.core result }
        ensures counts { self.new ≡ record self.old { core = self.new.core } }
        ensures keeps { Keeps (λ c. true) self.old.core self.new.core }
    {
        self.core.moment(moment)
    }

    /// The drain has begun. True where a connection broke in the step.
    pub fn drain(&mut self) -> bool
        ensures stands { TakesEvent Drain self.old self.new }
        ensures broke { Breaks self.old.core self.new.core result }
        ensures counts { self.new ≡ record self.old { core = self.new.core } }
        ensures keeps { Keeps (λ c. true) self.old.core self.new.core }
    {
        self.core.drain()
    }

    /// Closes a connection, and answers whether it was open.
    pub fn closing(&mut self, conn: ConnId) -> bool
        ensures stands { TakesEvent (Closing conn) self.old self.new }
        ensures closed { result ≡ is_open_conn conn self.old.core }
        ensures counts { self.new ≡ record self.old { core = self.new.core } }
        ensures keeps { KeepsBut (λ c. c == conn) (λ c. false) [] self.old.core self.new.core }
    {
        self.core.close(conn)
    }

    /// A branch of a call ends with that outcome. Adds 1 to the total of results, however it is seen.
    pub fn result(
        &mut self,
        call: &CallId,
        branch: u32,
        outcome: Outcome,
        mine: &mut Share<K>,
    ) -> Result<Took, LedgerFull>
        requires { 0 < mine.old.parts }
        ensures stands { OnOk result
            (TakesEvent (BranchResult call.now.conn call.now.request branch outcome) self.old self.new) }
        ensures tells { IfOk result (λ took. TellsTook call.now branch took self.old.core self.new.core) }
        ensures keeps { IfOk result (λ took.
            KeepsBut (λ c. false) (λ c. c == call.now.conn) (took.seen ∷ []) self.old.core self.new.core) }
        ensures counts { OnOk result
            (self.new ≡ record self.old { core = self.new.core; results = self.old.results + 1 }) }
        ensures full { MatchResult result (λ _. self.old.results + 1 ≤ most_total)
            (λ _. most_total < self.old.results + 1) }
        ensures unchanged { OnErr result (self.new ≡ self.old) }
        ensures share { MatchResult result (λ _. mine.new.amount ≡ mine.old.amount + 1)
            (λ _. mine.new.amount ≡ mine.old.amount) }
        ensures parts { mine.new.parts ≡ mine.old.parts }
    {
        if !self.results.has_room(1) {
            return Err(LedgerFull);
        }
        self.results.add(mine, 1);
        Ok(self.core.result(call, branch, outcome))
    }

    /// Whoever asked a backend found no memory for what the branch ended with, whatever that was. Adds 1 to the total
    /// of results.
    pub fn starved(
        &mut self,
        call: &CallId,
        branch: u32,
        mine: &mut Share<K>,
    ) -> Result<Took, LedgerFull>
        requires { 0 < mine.old.parts }
        ensures stands { OnOk result
            ((outcome : Outcomes)
            → TakesEvent (BranchResult call.now.conn call.now.request branch outcome) self.old self.new) }
        ensures tells { IfOk result (λ took. TellsTook call.now branch took self.old.core self.new.core) }
        ensures keeps { IfOk result (λ took.
            KeepsBut (λ c. false) (λ c. c == call.now.conn) (took.seen ∷ []) self.old.core self.new.core) }
        ensures counts { OnOk result
            (self.new ≡ record self.old { core = self.new.core; results = self.old.results + 1 }) }
        ensures full { MatchResult result (λ _. self.old.results + 1 ≤ most_total)
            (λ _. most_total < self.old.results + 1) }
        ensures unchanged { OnErr result (self.new ≡ self.old) }
        ensures share { MatchResult result (λ _. mine.new.amount ≡ mine.old.amount + 1)
            (λ _. mine.new.amount ≡ mine.old.amount) }
        ensures parts { mine.new.parts ≡ mine.old.parts }
    {
        if !self.results.has_room(1) {
            return Err(LedgerFull);
        }
        self.results.add(mine, 1);
        Ok(self.core.starved(call, branch))
    }

    /// Hands out the next job, in order of start, and adds 1 to the total of jobs where there is one. At a total of
    /// 2^62 it answers `LedgerFull`.
    pub fn take_job(&mut self, mine: &mut Share<J>) -> Result<Option<Job>, LedgerFull>
        requires { 0 < mine.old.parts }
        ensures stands { IfOk result (λ job. HandsJobs (job_list job) self.old self.new) }
        ensures gives { IfOk result (λ job. GivesJob job self.old.core self.new.core) }
        ensures rest { IfOk result (λ job. self.new ≡ record self.old {
          core = with_jobs (jobs_of self.new.core) self.old.core;
          jobs = self.old.jobs + length (job_list job);
        }) }
        ensures full { MatchResult result (λ _. self.old.jobs + 1 ≤ most_total)
            (λ _. most_total < self.old.jobs + 1) }
        ensures unchanged { OnErr result (self.new ≡ self.old) }
        ensures share { MatchResult result (λ job. mine.new.amount ≡ mine.old.amount + length (job_list job))
            (λ _. mine.new.amount ≡ mine.old.amount) }
        ensures parts { mine.new.parts ≡ mine.old.parts }
    {
        if !self.jobs.has_room(1) {
            return Err(LedgerFull);
        }
        let Some(job) = self.core.take_job() else {
            return Ok(None);
        };
        self.jobs.add(mine, 1);
        Ok(Some(job))
    }

    /// Hands out the next reply of a connection, in order of its requests.
    pub fn take_reply(&mut self, conn: ConnId) -> NextReply
        ensures stands { HandsReply conn (reply_given result) self.old self.new }
        ensures first { untaken_of conn self.old.core
            ≡ option_to_list (option_map (λ r. r.entry) (reply_given result)) ++ untaken_of conn self.new.core }
        ensures its { IfSome (reply_given result) (λ r. r.id ≡ next_reply conn self.old.core) }
        ensures none { reply_given result ≡ None → untaken_of conn self.old.core ≡ [] }
        ensures pending { result ≡ NextReply.Pending → (shown self.new.core).is_ended conn ≡ false }
        ensures over { result ≡ NextReply.Over → (shown self.new.core).is_ended conn ≡ true }
        ensures only { TakesOnly conn self.old.core self.new.core }
        ensures counts { self.new ≡ record self.old { core = self.new.core } }
    {
        match self.core.take_reply(conn) {
            Some(reply) => NextReply::Ready(reply),
            None if self.core.ended(conn) => NextReply::Over,
            None => NextReply::Pending,
        }
    }

    /// What holds of the core whenever its lock is free. At most 64 connections are open, and no more than 8 requests
    /// of one that is not broken wait for their replies. Of whatever events it stands for: a call that can be decided,
    /// of a connection that is not broken, has a lawful record, which is not decided; and no call has more branches
    /// out than its plan's limit. It does nothing.
    pub fn bounds_law(&self)
        ensures few { open_count self.now.core ≤ most_open }
        ensures calls { HasFewCalls self.now.core }
        ensures records { (id : CallId) (kept : CallRecord) (h : History) (occurred : List Placed)
            → Served self.now.core h → Occurs self.now.core.plans h.opened h.events occurred
            → is_whole id.conn (shown self.now.core) ≡ true → kept_record id self.now.core ≡ Some kept
            → (is_lawful kept ≡ true) × (is_decided kept ≡ false) }
        ensures limit { (id : CallId) (a : ArrivedCall) (h : History) (occurred : List Placed)
            → Served self.now.core h → Occurs self.now.core.plans h.opened h.events occurred
            → call id (marked (occurrences occurred)) ≡ Some a → outs_of id self.now.core ≤ a.plan.limit }
    {
        self.core.bounds_law();
        calls_law();
    }

    /// What is known of the gateway by the events that it stands for, whichever they are. It does nothing.
    pub fn known_law(&self)
        ensures known { (h : History) (occurred : List Placed) → BookStands self.now h → Occurs self.now.core.plans h.opened h.events occurred
            → IsKnown (shown self.now.core) h occurred }
    {
        known_law();
    }

    /// How the results were seen. Their number is the total of results.
    pub fn tally(&self) -> Tally
        ensures tally { result ≡ self.now.core.tally }
        ensures total { result.counted + result.late + result.unknown ≡ self.now.results }
    {
        // the total is within its ledger's bound, so no number of the tally stood still
        let _ = self.results.total();
        self.core.tally()
    }

    /// The totals. Shares have no more than those, and where they have all parts of a ledger they have all of its
    /// total.
    pub fn totals(&mut self, shares: &mut Shares<L, J, K>) -> Totals
        ensures totals { result ≡ totals_of self.old }
        ensures bound { (shares.old.bytes.amount ≤ result.bytes) × (shares.old.jobs.amount ≤ result.jobs)
            × (shares.old.results.amount ≤ result.results) }
        ensures bytes { shares.old.bytes.parts ≡ L.parts → shares.old.bytes.amount ≡ result.bytes }
        ensures jobs { shares.old.jobs.parts ≡ J.parts → shares.old.jobs.amount ≡ result.jobs }
        ensures results { shares.old.results.parts ≡ K.parts → shares.old.results.amount ≡ result.results }
        ensures unchanged { self.new ≡ self.old }
        ensures amounts { (shares.new.bytes.amount ≡ shares.old.bytes.amount)
            × (shares.new.jobs.amount ≡ shares.old.jobs.amount)
            × (shares.new.results.amount ≡ shares.old.results.amount) }
        ensures parts { (shares.new.bytes.parts ≡ shares.old.bytes.parts)
            × (shares.new.jobs.parts ≡ shares.old.jobs.parts)
            × (shares.new.results.parts ≡ shares.old.results.parts) }
    {
        Totals {
            bytes: self.bytes.audit(&mut shares.bytes),
            jobs: self.jobs.audit(&mut shares.jobs),
            results: self.results.audit(&mut shares.results),
        }
    }
}
