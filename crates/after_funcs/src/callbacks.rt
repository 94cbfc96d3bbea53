ghost use Rattle.std.specs.Prelude.{◌+◌, ◌≤◌};
ghost use Rattle.std.specs.VecDeque.{deque_len, deque_capacity};

mod calls;

use crate::registration::Registration;
use std::collections::VecDeque;

/// Hooks that wait for their contexts to end, and hooks that are due to be called.
///
/// What it keeps is told by the list of operations on it. It runs no hook by itself: `fire` says that a context has
/// ended, and `run_next` calls one hook.
#[derive(Drop)]
pub struct AfterFuncs<H> {
    /// The hooks that wait, in order of registration.
    waiting: VecDeque<Registration<H>>,
    /// The hooks that are due, in the order in which they became due, with room for those that wait.
    due: VecDeque<Registration<H>>,
    /// How many hooks were registered.
    registered: u64,
    ghost has_room: { deque_len due + deque_len waiting ≤ deque_capacity due },
}
