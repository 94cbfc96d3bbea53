//! The jobs that wait to be taken.
ghost use Rattle.std.specs.Prelude.{◌≡◌, ◌+◌, ◌-◌, ◌<◌, ◌≤◌, ◌++◌, ◌∷◌, [], None, OnErr, OnOk, length, option_map, option_to_list, slice_get};
ghost use Rattle.gateway_connection.specs.Jobs.{jobs_value};

use crate::job::Job;
use std::alloc::{AllocError, Global};
use std::collections::VecDeque;
use std::marker::Model;

/// The jobs not taken, in order of start, with room for those of all branches that wait.
#[derive(Drop)]
pub struct JobQueue {
    jobs: VecDeque<Job>,
    /// How many branches wait for their start.
    waiting: usize,
}

impl Model for JobQueue {
    ghost use Rattle.std.specs.Prelude.{◌+◌, ◌≤◌, length, map};
    ghost use Rattle.std.specs.VecDeque.{deque_capacity};
    ghost use Rattle.gateway_connection.specs.Jobs.{JobsValue, jobs_value};

    ghost Value = { JobsValue };

    ghost view = { λ q. jobs_value (map (λ j. j.job) q.jobs.items) q.waiting };

    ghost invariant = { λ q. length q.jobs.items + q.waiting ≤ deque_capacity q.jobs };
}

impl JobQueue {
    /// No job, and no branch that waits.
    pub fn new(alloc: Global) -> JobQueue
        ensures { result ≡ jobs_value [] 0 }
    {
        JobQueue {
            jobs: VecDeque::new(alloc),
            waiting: 0,
        }
    }

    /// How many jobs wait to be taken.
    pub fn len(&self) -> usize
        ensures { result ≡ length self.now.jobs }
    {
        self.jobs.len()
    }

    /// The job in that place of the order, from 0, if so many wait.
    pub fn get(&self, place: usize) -> Option<&Job>
        ensures { option_map (λ job. job.now.job) result ≡ slice_get self.now.jobs place }
    {
        self.jobs.get(place)
    }

    /// Hands out the next job, if one waits.
    pub fn take(&mut self) -> Option<Job>
        ensures jobs { self.old.jobs ≡ option_to_list (option_map (λ job. job.job) result) ++ self.new.jobs }
        ensures waiting { self.new.waiting ≡ self.old.waiting }
        ensures none { result ≡ None → self.old.jobs ≡ [] }
    {
        self.jobs.pop_front()
    }

    /// Makes room for the jobs of so many branches more.
    pub(crate) fn reserve(&mut self, more: usize) -> Result<(), AllocError>
        ensures ok { OnOk result (self.new ≡ jobs_value self.old.jobs (self.old.waiting + more)) }
        ensures err { OnErr result (self.new ≡ self.old) }
    {
        let Some(waiting) = self.waiting.checked_add(more) else {
            return Err(AllocError);
        };
        self.jobs.reserve(waiting)?;
        self.waiting = waiting;
        Ok(())
    }

    /// So many branches wait no more.
    pub(crate) fn release(&mut self, fewer: usize)
        requires { fewer ≤ self.old.waiting }
        ensures { self.new ≡ jobs_value self.old.jobs (self.old.waiting - fewer) }
    {
        self.waiting -= fewer;
    }

    /// The job of a branch that waited.
    pub(crate) fn push(&mut self, job: Job)
        requires { 0 < self.old.waiting }
        ensures { self.new ≡ jobs_value (self.old.jobs ++ job.job ∷ []) (self.old.waiting - 1) }
    {
        self.jobs.push_back_reserved(job);
        self.waiting -= 1;
    }
}
