//! What a new context needs beside its node: to wait to be handed out, if it is ended from the start, or a timer.
ghost use Rattle.std.specs.Prelude.{◌≡◌, ◌<◌, ◌++◌, ◌∷◌, [], false, is_none, None, OnOk, OnErr, if◌then◌else◌};
ghost use Rattle.context_tree.specs.Walks.{is_in, keys_of};
ghost use Rattle.context_tree.specs.Timed.{with_timer, if_sooner};
ghost use Rattle.timer_heap.specs.Timers.{timing};
ghost use Rattle.context_tree.specs.Context.{own_deadline};

use crate::id::CtxId;
use crate::node::{Ending, Kind};
use crate::queue::Queue;
use timer_heap::{SetError, Timers};

/// Adds a new context that is ended from the start to those that wait to be handed out.
pub(crate) fn add_new<C: Copy>(done: &mut Queue, id: CtxId, ending: Option<Ending<C>>)
    requires room { id.1 < done.old.room }
    requires apart { is_in id.1 (keys_of done.old.items) ≡ false }
    ensures done { done.new.items ≡ (if is_none ending then done.old.items else done.old.items ++ id ∷ []) }
    ensures room { done.new.room ≡ done.old.room }
{
    if ending.is_some() {
        done.push(id);
    }
}

/// The time at which a new context ends by itself, if it is not ended from the start and does not end as soon by what
/// it follows.
pub(crate) fn time_of_new<C: Copy, V>(
    kind: &Kind<C, V>,
    ending: Option<Ending<C>>,
    above: Option<u64>,
) -> Option<u64>
    ensures { result ≡ (if is_none ending then if_sooner (own_deadline kind.now) above else None) }
{
    match (ending, kind.deadline(), above) {
        (None, Some(own), Some(other)) if own >= other => None,
        (None, own, _) => own,
        _ => None,
    }
}

/// Sets the timer of a new context, if a time is given.
pub(crate) fn set_timer(timers: &mut Timers, time: Option<u64>, key: u64) -> Result<(), SetError>
    ensures set { OnOk result (timing timers.new ≡ with_timer time key (timing timers.old)) }
    ensures unchanged { OnErr result (timing timers.new ≡ timing timers.old) }
{
    match time {
        Some(at) => timers.set(at, key),
        None => Ok(()),
    }
}
