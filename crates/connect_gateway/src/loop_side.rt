ghost use Rattle.std.specs.Prelude.{⊤};

use crate::socket::Socket;
use admin::{LoopCounts, Stage};
use crossbeam_channel::{Receiver, Sender, unbounded};
use gateway_core::Tally;
use gateway_loop::{Dealt, KeptCounts, LookedUp, LoopStanding};
use mio::Waker;
use script_replay::PlainHook;
use std::alloc::{AllocError, Global};
use std::marker::Model;
use std::sync::atomic::{AtomicBool, AtomicU64, Ordering};
use std::sync::{Arc, Mutex, Wait};
use std::thread;
use std::time::{Clock, Duration};
use wires::Told;

/// What failed is tried again after so many milliseconds: a wait of a loop, waking one, and handing in what was found for
/// a name.
pub(crate) const PAUSE: u64 = 10;

/// What other threads hand to a loop.
#[derive(Drop)]
pub(crate) enum Mail {
    /// A client's stream, with what its connection needs.
    Stream(Dealt<PlainHook, Told<Socket>>),
    /// What was found for a name that it asked for.
    Found(LookedUp),
}

/// What one loop shares with main, and with those who look up names for it.
#[derive(Drop)]
pub(crate) struct LoopSide {
    mail: Sender<Mail>,
    waker: Waker,
    /// How many of its connections are open, with those that it has not taken yet: each has a seat among them.
    pub(crate) open: Arc<AtomicU64>,
    /// How its replies came out, where that is asked for.
    pub(crate) counts: Option<LoopCounts>,
    /// How many streams it closed without a byte.
    pub(crate) unserved: AtomicU64,
    /// How many of its connections broke, for want of memory.
    pub(crate) broken: AtomicU64,
    /// How many connections to backends it opened.
    pub(crate) opened: AtomicU64,
    // how it stood after its last turn
    standing: Mutex<LoopStanding>,
    is_closed: AtomicBool,
    // whether connections are to be closed as soon as nothing is owed to them, calls that are left to be ended, and
    // streams that are left to be cut
    closes_idle: AtomicBool,
    ends_calls: AtomicBool,
    is_cut: AtomicBool,
    is_over: AtomicBool,
}

// Clauses see nothing of it, which keeps proofs small.
impl Model for LoopSide {
    ghost Value = { ⊤ };

    ghost view = { λ _. tt };
}

impl LoopSide {
    /// Of a loop that this waker wakes, with counts if there are to be some; and what the loop takes its mail from.
    pub(crate) fn new(
        alloc: Global,
        waker: Waker,
        counts: Option<LoopCounts>,
    ) -> Result<(LoopSide, Receiver<Mail>), AllocError> {
        let (mail, taken) = unbounded(alloc)?;
        let side = LoopSide {
            mail,
            waker,
            open: Arc::new(alloc, AtomicU64::new(0))?,
            counts,
            unserved: AtomicU64::new(0),
            broken: AtomicU64::new(0),
            opened: AtomicU64::new(0),
            standing: Mutex::new(idle(
                Tally {
                    counted: 0,
                    late: 0,
                    unknown: 0,
                },
                KeptCounts::new(),
            )),
            is_closed: AtomicBool::new(false),
            closes_idle: AtomicBool::new(false),
            ends_calls: AtomicBool::new(false),
            is_cut: AtomicBool::new(false),
            is_over: AtomicBool::new(false),
        };
        Ok((side, taken))
    }

    /// Hands something in, and wakes the loop. Hands it back where the loop is over, and where there is no memory.
    pub(crate) fn hand_in<R: Wait + Clock>(&self, rt: &R, mail: Mail) -> Result<(), Mail> {
        let sent = self.mail.send(rt, mail);
        sent.map_err(|refused| refused.into_inner())?;
        self.wake(rt);
        Ok(())
    }

    /// No more streams will come: the loop ends once its clients have gone.
    pub(crate) fn close<R: Wait + Clock>(&self, rt: &R) {
        self.is_closed.store(true, Ordering::SeqCst);
        self.wake(rt);
    }

    pub(crate) fn is_closed(&self) -> bool {
        self.is_closed.load(Ordering::SeqCst)
    }

    /// The gateway is drained: this stage of it has come. Streams come no more by then.
    pub(crate) fn follow<R: Wait + Clock>(&self, rt: &R, stage: Stage) {
        let is_known = match stage {
            Stage::Serves | Stage::Accepts => true,
            Stage::Closes => self.closes_idle.swap(true, Ordering::SeqCst),
            Stage::Ends => {
                self.closes_idle.store(true, Ordering::SeqCst);
                self.ends_calls.swap(true, Ordering::SeqCst)
            }
            Stage::Cuts => self.is_cut.swap(true, Ordering::SeqCst),
        };
        if !is_known {
            self.wake(rt);
        }
    }

    /// The last stage of a drain that has come.
    pub(crate) fn stage(&self) -> Stage {
        if self.is_cut.load(Ordering::SeqCst) {
            Stage::Cuts
        } else if self.ends_calls.load(Ordering::SeqCst) {
            Stage::Ends
        } else if self.closes_idle.load(Ordering::SeqCst) {
            Stage::Closes
        } else {
            Stage::Serves
        }
    }

    /// It serves nobody any more: it has no connections and asks no backends, whatever it had when it ended. What it
    /// counted stays.
    pub(crate) fn end<R: Wait>(&self, rt: &R) {
        self.is_over.store(true, Ordering::SeqCst);
        let last = self.standing(rt);
        self.tell(rt, idle(last.tally, last.kept_counts));
    }

    pub(crate) fn is_over(&self) -> bool {
        self.is_over.load(Ordering::SeqCst)
    }

    /// How it stood after its last turn.
    pub(crate) fn standing<R: Wait>(&self, rt: &R) -> LoopStanding {
        *self.standing.lock(rt)
    }

    /// It stands so now.
    pub(crate) fn tell<R: Wait>(&self, rt: &R, standing: LoopStanding) {
        *self.standing.lock(rt) = standing;
    }

    /// Wakes the loop. Where the system refuses that it is tried again, as long as the loop is there: else the loop would
    /// sleep on until something else wakes it.
    fn wake<R: Wait + Clock>(&self, rt: &R) {
        for _ in rt.forever() {
            if self.waker.wake().is_ok() || self.is_over() {
                return;
            }
            thread::sleep(rt, Duration::from_millis(PAUSE));
        }
        unreachable!()
    }
}

/// A loop that has nothing to do, and has counted these results, and this of connections that were kept.
fn idle(tally: Tally, kept_counts: KeptCounts) -> LoopStanding {
    LoopStanding {
        open: 0,
        lingering: 0,
        asking: 0,
        waiting: 0,
        kept: 0,
        kept_counts,
        tally,
    }
}
