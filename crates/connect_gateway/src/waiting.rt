ghost use Rattle.std.specs.Prelude.{◌≡◌, ◌==◌, ◌+◌, ◌-◌, ◌^◌, ◌∷◌, ◌++◌, [], length, drop, map, min};
ghost use Rattle.std.specs.Prelude.{◌≤◌, ◌<◌, IfOk, IfSome, MatchOption, All, take, nat_le, None};
ghost use Rattle.std.specs.Option.{option_to_list};

use std::alloc::{AllocError, Global};
use std::collections::VecDeque;
use std::marker::Model;

/// So many streams wait at most.
pub(crate) const MOST_WAITING: usize = 256;

/// So long each of them waits at most, in milliseconds.
const LONGEST: u64 = 1_000;

/// Streams that were accepted and not read, the oldest first: each waits for a place in a loop, up to a moment.
#[derive(Drop)]
pub(crate) struct Waiting<S> {
    streams: VecDeque<Waiter<S>>,
}

/// A stream that waits up to that moment.
#[derive(Drop)]
pub(crate) struct Waiter<S> {
    stream: S,
    until: u64,
}

impl<S> Model for Waiting<S> {
    ghost use Rattle.std.specs.Prelude.{List, ℕ, map};

    // each stream, and up to which moment it waits
    ghost Value = { List (S × ℕ) };

    ghost view = { λ w. map (λ x. (x.stream, x.until)) w.streams.items };
}

impl<S: Drop> Waiting<S> {
    /// None yet, with room for as many as may wait.
    pub(crate) fn new(alloc: Global) -> Result<Waiting<S>, AllocError>
        ensures empty { IfOk result (λ w. w ≡ []) }
    {
        Ok(Waiting {
            streams: VecDeque::with_capacity(alloc, MOST_WAITING)?,
        })
    }

    /// Whether nobody waits.
    pub(crate) fn is_empty(&self) -> bool
        ensures { result ≡ (length self.now == 0) }
    {
        self.streams.is_empty()
    }

    /// Whether no more may wait.
    pub(crate) fn is_full(&self) -> bool
        ensures { result ≡ nat_le 256 (length self.now) }
    {
        self.streams.len() >= MOST_WAITING
    }

    /// How many wait.
    pub(crate) fn len(&self) -> usize
        ensures { result ≡ length self.now }
    {
        self.streams.len()
    }

    /// One more waits behind the others, for a second from that moment on. Without memory for that it is let go.
    pub(crate) fn add(&mut self, stream: S, moment: u64) -> Result<(), AllocError>
        ensures added { IfOk result (λ _. self.new ≡ self.old ++ (stream, min (moment + 1000) (2 ^ 64 - 1)) ∷ []) }
    {
        let until = moment.saturating_add(LONGEST);
        self.streams.push_back(Waiter { stream, until })?;
        Ok(())
    }

    /// Takes out the oldest.
    pub(crate) fn next(&mut self) -> Option<S>
        ensures taken { map (λ x. x.0) self.old ≡ option_to_list result ++ map (λ x. x.0) self.new }
        ensures rest { self.new ≡ drop 1 self.old }
    {
        self.streams.pop_front().map(|waiter| waiter.stream)
    }

    /// Takes out the oldest if it has waited up to its moment.
    pub(crate) fn next_late(&mut self, moment: u64) -> Option<S>
        ensures late { IfSome result (λ _. All (λ x. x.1 ≤ moment) (take 1 self.old)) }
        ensures early { result ≡ None → All (λ x. moment < x.1) (take 1 self.old) }
        ensures rest { MatchOption result (self.new ≡ self.old) (λ _. self.new ≡ drop 1 self.old) }
        ensures taken { map (λ x. x.0) self.old ≡ option_to_list result ++ map (λ x. x.0) self.new }
    {
        if self.until()? <= moment {
            self.next()
        } else {
            None
        }
    }

    /// Up to which moment the oldest waits.
    pub(crate) fn until(&self) -> Option<u64>
        ensures { option_to_list result ≡ map (λ x. x.1) (take 1 self.now) }
    {
        Some(self.streams.front()?.until)
    }
}
