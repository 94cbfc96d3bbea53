ghost use Rattle.std.specs.Prelude.{◌≡◌, ◌+◌, ◌≤◌, ℕ, Option, None, MatchBool, MatchOption};
ghost use Rattle.gateway_theory.specs.Task.{HandedJob};
ghost use Rattle.branch_exchange.specs.declared.asked.Asked.{Asked};
ghost use Rattle.backend_pool.specs.Work.{ComesOf, IsOutcomeOf, NextTells, RecordTells, Told, WorksAt, unrecorded};

use branch_exchange::{Asked, outcome_of};
use connect_codec::Outcome;
use gateway_core::{CallId, Job};
use std::alloc::Global;
use std::net::Net;
use std::sync::Wait;
use std::time::Clock;

/// Who is asked for the branches of calls. `gives` says which answers may come for a job.
pub trait Backend {
    ghost gives: { HandedJob → Asked → Type 0 };

    /// Asks for the answer to the job.
    fn ask<R: Net + Clock>(&self, rt: &R, job: &Job) -> Asked
        ensures { gives job.now result };
}

/// Where a worker takes its jobs and records what came of them. A desk in memory tells both.
pub trait Desk {
    /// What it tells; a desk under a lock tells nothing.
    ghost told: { Self → Option Told } = { λ _. None };

    /// How many jobs it gave.
    ghost gave: { Self → ℕ };

    /// How many outcomes it recorded.
    ghost took: { Self → ℕ };

    /// Gives the next job. None where there will be no more for this worker.
    fn next<R: Clock + Wait>(&mut self, rt: &R) -> Option<Job>
        ensures told { NextTells (told self.old) (told self.new) result }
        ensures gave { MatchOption result (gave self.new ≡ gave self.old) (λ _. gave self.new ≡ gave self.old + 1) }
        ensures took { took self.new ≡ took self.old };

    /// Records how the job's branch ended; None where no memory was found for that. False where nothing is recorded
    /// any more.
    fn record<R: Clock + Wait>(&mut self, rt: &R, job: &Job, outcome: Option<Outcome>) -> bool
        ensures told { RecordTells (told self.old) (told self.new) job.now outcome result }
        ensures gave { gave self.new ≡ gave self.old }
        ensures took { MatchBool result (took self.new ≡ took self.old + 1) (took self.new ≡ took self.old) };
}

/// What was recorded of a job.
#[derive(Debug, Drop)]
pub struct DeskRecord {
    pub call: CallId,
    pub branch: u32,
    /// How the branch ended; None where no memory was found for that.
    pub outcome: Option<Outcome>,
}

/// What is called around the asking of each job, by the thread that has it.
pub trait Gate {
    /// The job was taken and was not asked yet.
    fn before<R: Clock>(&self, rt: &R, job: &Job);

    /// The job was asked, or is not wanted or was given up, and was not recorded yet.
    fn after<R: Clock>(&self, rt: &R, job: &Job);
}

/// A gate that does nothing.
#[derive(Clone, Copy, Debug)]
pub struct NoGate;

impl Gate for NoGate {
    fn before<R: Clock>(&self, _rt: &R, _job: &Job) {}

    fn after<R: Clock>(&self, _rt: &R, _job: &Job) {}
}

/// Takes jobs at the desk, asks for each that is wanted, and records its outcome, until no job is given or a record is
/// not taken. A job that is not wanted counts as lost. Answers whether all that were taken were recorded.
pub fn work<R: Net + Clock + Wait, D: Desk, B: Backend, G: Gate>(
    rt: &R,
    alloc: Global,
    desk: &mut D,
    backend: &B,
    gate: &G,
) -> bool
    // Each job taken is recorded once, in order, but for the last where its record was not taken.
    ensures told { WorksAt B.gives (unrecorded result) (D.told desk.old) (D.told desk.new) }
    ensures gave { D.gave desk.old ≤ D.gave desk.new }
    ensures took { D.took desk.old ≤ D.took desk.new }
    ensures each { D.took desk.old + D.gave desk.new ≡ D.took desk.new + D.gave desk.old + unrecorded result }
{
    for _ in rt.forever() {
        let Some(job) = desk.next(rt) else {
            return true;
        };
        let outcome = serve(rt, alloc, &job, backend, gate);
        if !desk.record(rt, &job, outcome) {
            return false;
        }
    }
    unreachable!()
}

/// What comes of the job: its outcome, or None for want of memory.
fn serve<R: Net + Clock, B: Backend, G: Gate>(
    rt: &R,
    alloc: Global,
    job: &Job,
    backend: &B,
    gate: &G,
) -> Option<Outcome>
    ensures { IsOutcomeOf B.gives job.now result }
{
    gate.before(rt, job);
    let asked = ask(rt, job, backend);
    gate.after(rt, job);
    outcome_of(alloc, asked)
}

/// The backend's answer to a job that is wanted.
fn ask<R: Net + Clock, B: Backend>(rt: &R, job: &Job, backend: &B) -> Asked
    ensures { ComesOf B.gives job.now result }
{
    if job.wanted() {
        backend.ask(rt, job)
    } else {
        Asked::Lost
    }
}
