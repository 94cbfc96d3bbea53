ghost use Rattle.std.specs.Prelude.{◌≡◌, [], length, Some};
ghost use Rattle.memory_ends.specs.Desk.{desk_value};

use backend_pool::{Desk, DeskRecord};
use connect_codec::Outcome;
use gateway_core::Job;
use std::alloc::Global;
use std::collections::VecDeque;
use std::marker::Model;
use std::sync::Wait;
use std::time::Clock;

/// A desk in memory: it gives the jobs that it was made with, and keeps what is recorded, up to so many records.
#[derive(Drop)]
pub struct MemoryDesk {
    jobs: VecDeque<Job>,
    /// How many jobs there were at first.
    all: usize,
    records: Vec<DeskRecord>,
    most: usize,
}

impl Model for MemoryDesk {
    ghost use Rattle.std.specs.Prelude.{◌≤◌, ◌-◌, length};
    ghost use Rattle.memory_ends.specs.Desk.{DeskValue, desk_value};

    ghost Value = { DeskValue };

    ghost view = { λ d. desk_value d.jobs.items d.records.items (d.all - length d.jobs.items) };

    ghost invariant = { λ d. length d.jobs.items ≤ d.all };
}

impl MemoryDesk {
    /// A desk that gives these jobs, and takes at most so many records, which are kept on this allocator.
    pub fn new(alloc: Global, jobs: VecDeque<Job>, most: usize) -> MemoryDesk
        ensures { result ≡ desk_value jobs.items [] 0 }
    {
        MemoryDesk {
            all: jobs.len(),
            jobs,
            records: Vec::new(alloc),
            most,
        }
    }

    /// What was recorded, in order.
    pub fn records(&self) -> &[DeskRecord]
        ensures { result.now ≡ self.now.told.records }
    {
        self.records.as_slice()
    }
}

impl Desk for MemoryDesk {
    ghost told = { λ d. Some d.told };

    ghost gave = { λ d. d.given };

    ghost took = { λ d. length d.told.records };

    fn next<R: Clock + Wait>(&mut self, _rt: &R) -> Option<Job> {
        self.jobs.pop_front()
    }

    fn record<R: Clock + Wait>(&mut self, _rt: &R, job: &Job, outcome: Option<Outcome>) -> bool {
        if self.records.len() >= self.most {
            return false;
        }
        let entry = DeskRecord {
            call: job.call(),
            branch: job.branch(),
            outcome,
        };
        self.records.push(entry).is_ok()
    }
}
