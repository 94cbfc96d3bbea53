ghost use Rattle.std.specs.Prelude.{⊤};

use crate::loop_side::PAUSE;
use mio::Waker;
use std::marker::Model;
use std::sync::Wait;
use std::sync::atomic::{AtomicBool, Ordering};
use std::thread;
use std::time::{Clock, Duration};

/// What main shares with the loops.
#[derive(Drop)]
pub(crate) struct MainSide {
    waker: Waker,
    // whether main waits for a place in a loop
    awaits_place: AtomicBool,
}

// Clauses see nothing of it, which keeps proofs small.
impl Model for MainSide {
    ghost Value = { ⊤ };

    ghost view = { λ _. tt };
}

impl MainSide {
    /// Of a main that this waker wakes, and that waits for no place.
    pub(crate) fn new(waker: Waker) -> MainSide {
        MainSide {
            waker,
            awaits_place: AtomicBool::new(false),
        }
    }

    /// Main waits for a place from now on, or no more. It looks for one behind this, and then sleeps.
    pub(crate) fn await_place(&self, is_awaited: bool) {
        self.awaits_place.store(is_awaited, Ordering::SeqCst);
    }

    /// A place was given back: wakes main, once, if it waits for one.
    pub(crate) fn place_is_free(&self) {
        let is_awaited = self.awaits_place.load(Ordering::SeqCst);
        if is_awaited && self.awaits_place.swap(false, Ordering::SeqCst) {
            if self.waker.wake().is_err() {
                // the next place wakes it; and it looks for one before it turns anyone away
                self.awaits_place.store(true, Ordering::SeqCst);
            }
        }
    }

    /// A loop is over: wakes main. Where the system refuses that it is tried again.
    pub(crate) fn wake<R: Wait + Clock>(&self, rt: &R) {
        for _ in rt.forever() {
            if self.waker.wake().is_ok() {
                return;
            }
            thread::sleep(rt, Duration::from_millis(PAUSE));
        }
        unreachable!()
    }
}
