ghost use Rattle.std.specs.Prelude.{◌≡◌, IfSome, Some};

use crate::log_writer::milliseconds_since_1970;
use access_log::{
    BranchAsked, Caller, Unserved, branch_line, broken_line, closed_line, log_line, tells_branch,
};
use crossbeam_channel::Sender;
use gateway_core::{CallId, ConnId, Job, ReplyEntry};
use gateway_loop::{BranchEnd, Cause};
use std::alloc::{AllocError, Global};
use std::str;
use std::sync::atomic::{AtomicU64, Ordering};
use std::sync::{Arc, Wait};
use std::time::Clock;

/// So many lines wait at most to be written; further ones are left out.
const MOST_LINES: usize = 4_096;

/// Where the lines of a log are handed in, on their way to the thread that writes them (`LogWriter`): a reader of the
/// log that stalls keeps nobody from serving.
#[derive(Drop)]
pub(crate) struct LogLines {
    pub(crate) lines: Sender<String>,
    // how many were left out
    pub(crate) dropped: Arc<AtomicU64>,
    /// Whether branches that answered are told too.
    pub(crate) tells_all: bool,
}

impl LogLines {
    /// The log of the loop with that number.
    pub(crate) fn of_loop(&self, alloc: Global, worker: u32) -> Result<LoopLog, AllocError> {
        Ok(LoopLog {
            alloc,
            worker,
            to: self.try_clone()?,
        })
    }

    /// The same log.
    pub(crate) fn try_clone(&self) -> Result<LogLines, AllocError> {
        Ok(LogLines {
            lines: self.lines.clone()?,
            dropped: Arc::try_clone(&self.dropped)?,
            tells_all: self.tells_all,
        })
    }

    /// Tells that a stream was closed without a byte.
    pub(crate) fn tell_unserved<R: Clock + Wait>(&self, rt: &R, alloc: Global, why: Unserved) {
        let line = closed_line(alloc, milliseconds_since_1970(rt), why);
        self.add(rt, line.ok());
    }

    /// Hands in a line, if there is one and room for it; else that is counted.
    pub(crate) fn add<R: Wait>(&self, rt: &R, line: Option<String>) {
        let is_taken = match line {
            Some(line) => self.lines.len() < MOST_LINES && self.lines.send(rt, line).is_ok(),
            None => false,
        };
        if !is_taken {
            self.dropped.fetch_add(1, Ordering::SeqCst);
        }
    }
}

/// The lines of a log that tell of one loop.
#[derive(Drop)]
pub(crate) struct LoopLog {
    alloc: Global,
    worker: u32,
    to: LogLines,
}

impl LoopLog {
    /// Tells of a reply that was written whole at that moment, to the client of that address.
    pub(crate) fn tell_reply<R: Clock + Wait>(
        &self,
        rt: &R,
        moment: u64,
        id: CallId,
        entry: &ReplyEntry,
        caller: &Caller<'_>,
    ) {
        let time = milliseconds_since_1970(rt);
        let line = log_line(self.alloc, time, moment, self.worker, id, entry, caller);
        self.to.add(rt, line.ok());
    }

    /// Tells that the connection broke, for want of memory.
    pub(crate) fn tell_broken<R: Clock + Wait>(&self, rt: &R, conn: ConnId, peer: Option<&str>) {
        let time = milliseconds_since_1970(rt);
        let line = broken_line(self.alloc, time, self.worker, conn, peer);
        self.to.add(rt, line.ok());
    }

    /// Tells what came of asking the backend of a branch, unless it answered and only failures are told.
    pub(crate) fn tell_branch<R: Clock + Wait>(&self, rt: &R, end: &BranchEnd) {
        if tells_branch(end.cause, self.to.tells_all) {
            self.tell_end(rt, end);
        }
    }

    /// Tells that the backend of a branch will not be asked.
    pub(crate) fn tell_unasked<R: Clock + Wait>(&self, rt: &R, job: &Job) {
        self.tell_asked(rt, &unasked(job));
    }

    fn tell_end<R: Clock + Wait>(&self, rt: &R, end: &BranchEnd) {
        let asked = BranchAsked {
            took: end.took,
            cause: end.cause,
            status: end.status,
            is_reused: end.is_reused,
            ..unasked(&end.job)
        };
        self.tell_asked(rt, &asked);
    }

    fn tell_asked<R: Clock + Wait>(&self, rt: &R, asked: &BranchAsked<'_>) {
        let line = branch_line(self.alloc, milliseconds_since_1970(rt), self.worker, asked);
        self.to.add(rt, line.ok());
    }

    /// Tells that a stream was closed without a byte.
    pub(crate) fn tell_unserved<R: Clock + Wait>(&self, rt: &R) {
        self.to.tell_unserved(rt, self.alloc, Unserved::NoMemory);
    }
}

/// The branch of the job, whose backend was not asked.
fn unasked(job: &Job) -> BranchAsked<'_> {
    BranchAsked {
        call: job.call(),
        plan: job.plan_path(),
        branch: job.branch_name(),
        address: job.address(),
        took: 0,
        cause: Cause::NeverAsked,
        status: None,
        request_id: id_of(job),
        is_reused: false,
    }
}

/// The request id of the job's call, if it has one that is a text.
fn id_of(job: &Job) -> Option<&str>
    ensures { IfSome result (λ id. job.now.job.request_id ≡ Some id.now) }
{
    str::from_utf8(job.request_id()?).ok()
}
