ghost use Rattle.backend_pool.specs.Book.{Records};
ghost use Rattle.backend_pool.specs.Work.{uncounted};
ghost use Rattle.std.specs.Prelude.{◌≡◌, ◌+◌, ◌<◌, ◌≤◌, MatchResult, OnErr, OnOk};

use crate::book::Book;
use crate::counter::{LedgerFull, WorkerShares};
use crate::working::{Backend, Desk, Gate, work};
use connect_codec::Outcome;
use gateway_core::{Job, ReplyHook, Took};
use std::alloc::Global;
use std::net::Net;
use std::sync::ledger::{Ledger, Share};
use std::sync::{Condvar, Mutex, Wait};
use std::time::Clock;

/// What stands under the lock.
#[derive(Drop)]
pub struct State<H, L: Ledger, J: Ledger, K: Ledger> {
    pub book: Book<H, L, J, K>,
    /// Whether workers end once no job waits, and the clock's side at its next turn.
    pub shut: bool,
}

/// The book under its lock, and what the threads wait for. Each event's hold wakes all who wait.
#[derive(Drop)]
pub struct Shared<H, L: Ledger, J: Ledger, K: Ledger> {
    pub state: Mutex<State<H, L, J, K>>,
    /// Workers wait here for a job, or for the shutting.
    pub jobs: Condvar,
    /// Write sides wait here for their next reply, or for their connection's end.
    pub replies: Condvar,
}

impl<H: ReplyHook + Drop, L: Ledger, J: Ledger, K: Ledger> Shared<H, L, J, K> {
    /// The book under a lock that is free; it is not shut.
    pub fn new(book: Book<H, L, J, K>) -> Shared<H, L, J, K> {
        Shared {
            state: Mutex::new(State { book, shut: false }),
            jobs: Condvar::new(),
            replies: Condvar::new(),
        }
    }

    /// Shuts it: workers end once no job waits. The core does not change.
    pub fn shut(&self, rt: &impl Wait) {
        let mut state = self.state.lock(rt);
        state.shut = true;
        self.wake();
    }

    /// Wakes all who wait, for jobs and for replies. Each event's hold does this before it lets the lock go.
    pub fn wake(&self) {
        self.jobs.notify_all();
        self.replies.notify_all();
    }
}

/// A desk over the lock, each of whose calls is one hold.
struct LockDesk<'a, H, L: Ledger, J: Ledger, K: Ledger> {
    shared: &'a Shared<H, L, J, K>,
    shares: WorkerShares<J, K>,
    ghost jobs_part: { shares.jobs.parts ≡ 1 },
    ghost results_part: { shares.results.parts ≡ 1 },
}

impl<H: ReplyHook + Drop, L: Ledger, J: Ledger, K: Ledger> Desk for LockDesk<'_, H, L, J, K> {
    ghost gave = { λ d. d.shares.jobs.amount };

    ghost took = { λ d. d.shares.results.amount };

    fn next<R: Clock + Wait>(&mut self, rt: &R) -> Option<Job> {
        let mut state = self.shared.state.lock(rt);
        for _ in rt.forever() {
            let job = state.book.take_job(&mut self.shares.jobs).ok()?;
            if job.is_some() || state.shut {
                return job;
            }
            state = self.shared.jobs.wait(rt, state);
        }
        unreachable!()
    }

    fn record<R: Clock + Wait>(&mut self, rt: &R, job: &Job, outcome: Option<Outcome>) -> bool {
        let mut state = self.shared.state.lock(rt);
        let recorded = state.record(job, outcome, &mut self.shares.results);
        self.shared.wake();
        recorded.is_ok()
    }
}

impl<H: ReplyHook + Drop, L: Ledger, J: Ledger, K: Ledger> State<H, L, J, K> {
    /// Records how a job's branch ended; None where no memory was found for that.
    fn record(
        &mut self,
        job: &Job,
        outcome: Option<Outcome>,
        mine: &mut Share<K>,
    ) -> Result<Took, LedgerFull>
        requires { 0 < mine.old.parts }
        ensures stands { OnOk result (Records outcome job.now.job self.old.book self.new.book) }
        ensures unchanged { OnErr result (self.new.book ≡ self.old.book) }
        ensures parts { mine.new.parts ≡ mine.old.parts }
        ensures counted { MatchResult result (λ _. mine.new.amount ≡ mine.old.amount + 1)
            (λ _. mine.new.amount ≡ mine.old.amount) }
    {
        let call = job.call();
        match outcome {
            Some(outcome) => self.book.result(&call, job.branch(), outcome, mine),
            None => self.book.starved(&call, job.branch(), mine),
        }
    }
}

/// Works at the lock until it is shut and no job waits, or a total would pass 2^62, and gives the shares back.
/// `LedgerFull` where the last job's result was not counted, since that total would.
pub fn worker<H: ReplyHook + Drop, L: Ledger, J: Ledger, K: Ledger>(
    rt: &(impl Net + Clock + Wait),
    alloc: Global,
    shared: &Shared<H, L, J, K>,
    backend: &impl Backend,
    gate: &impl Gate,
    shares: WorkerShares<J, K>,
) -> (WorkerShares<J, K>, Result<(), LedgerFull>)
    requires parts { (shares.jobs.parts ≡ 1) × (shares.results.parts ≡ 1) }
    ensures parts { (result.0.jobs.parts ≡ 1) × (result.0.results.parts ≡ 1) }
    ensures jobs { shares.jobs.amount ≤ result.0.jobs.amount }
    ensures results { shares.results.amount ≤ result.0.results.amount }
    // one result for each job, but for the last at `LedgerFull`
    ensures each { shares.results.amount + result.0.jobs.amount
        ≡ result.0.results.amount + shares.jobs.amount + uncounted result.1 }
{
    let mut desk = LockDesk { shared, shares };
    let counted = work(rt, alloc, &mut desk, backend, gate);
    let LockDesk { shared: _, shares } = desk;
    let ended = if counted { Ok(()) } else { Err(LedgerFull) };
    (shares, ended)
}
