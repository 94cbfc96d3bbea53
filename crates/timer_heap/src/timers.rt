ghost use Rattle.std.specs.Prelude.{◌≡◌, ◌∷◌, ◌++◌, ◌+◌, [], Err, OnOk, OnErr, IsOkUnless, MatchOption, List, option_map, length, is_ok, is_some};
ghost use Rattle.timer_heap.specs.declared.error.SetError.TheVariants.{Memory};
ghost use Rattle.timer_heap.specs.Timers.{TimerOp, Set, Stop, PopDue, StandsFor, is_set, earliest, popped, next_time, set_fault, without, left_by, timing, MovesWithin};

use crate::error::SetError;
use crate::heap;
use crate::heap::Entry;
use std::alloc::Global;
use std::collections::BTreeMap;
use std::marker::Model;

const MOST_SETS: u64 = 1 << 62;

/// Timers that wait, by handed-in moments.
///
/// Contracts see those that wait, in the order of setting, how many were ever set, and how many exchanges the last call
/// made. What each call does and answers is said over the list of the operations so far, newest first: a value that
/// stands for a list stands, after a call, for that list with the call's own operation before it. A refused `set` is no
/// operation.
#[derive(Debug, Drop)]
pub struct Timers {
    heap: Vec<Entry>,
    places: BTreeMap<u64, usize>,
    sets: u64,
    moves: u32,
}

impl Model for Timers {
    ghost use Rattle.timer_heap.specs.Timers.{Counted};

    ghost Value = { Counted };

    ghost use Rattle.std.specs.Ordering.{nat_cmp};
    ghost use Rattle.std.specs.BTreeMap as tree;
    ghost use Rattle.timer_heap.specs.Heap.{in_order, IsSound};

    ghost view = { λ t. record { entries = in_order t.sets t.heap.items; sets = t.sets; moves = t.moves } };

    ghost invariant = { λ t. IsSound t.sets t.heap.items (tree.get nat_cmp t.places) };
}

impl Timers {
    /// No timers. Later ones are kept on this allocator.
    pub fn new(alloc: Global) -> Timers
        ensures { StandsFor result [] }
    {
        Timers {
            heap: Vec::new(alloc),
            places: BTreeMap::new(alloc),
            sets: 0,
            moves: 0,
        }
    }

    /// Sets a timer, due from the moment `at` on, under an id that no waiting timer has.
    ///
    /// A refusal is the first that applies of `Waiting`, `Exhausted` and `Memory`, and it changes nothing.
    pub fn set(&mut self, at: u64, id: u64) -> Result<(), SetError>
        ensures added { OnOk result (timing self.new ≡ record {
          entries = self.old.entries ++ record { at = at; id = id } ∷ [];
          sets = self.old.sets + 1;
        }) }
        ensures set { OnOk result ((past : List TimerOp) → StandsFor self.old past → StandsFor self.new (Set at id ∷ past)) }
        ensures refused { MatchOption (set_fault id self.old) (IsOkUnless result Memory) (λ e. result ≡ Err e) }
        ensures unchanged { OnErr result (timing self.new ≡ timing self.old) }
        ensures keeps { OnErr result ((past : List TimerOp) → StandsFor self.old past → StandsFor self.new past) }
        ensures moves { MovesWithin (is_ok result) self.old self.new }
    {
        self.moves = 0;
        if self.places.contains_key(&id) {
            return Err(SetError::Waiting);
        }
        if self.sets >= MOST_SETS {
            return Err(SetError::Exhausted);
        }
        let number = self.sets;
        match heap::add(&mut self.heap, &mut self.places, Entry { at, id, number }) {
            Ok(moves) => {
                self.sets += 1;
                self.moves = moves;
                Ok(())
            }
            Err(_) => Err(SetError::Memory),
        }
    }

    /// Stops the timer of that id. The answer is true exactly where one was waiting.
    pub fn stop(&mut self, id: u64) -> bool
        ensures answer { result ≡ is_set id self.old.entries }
        ensures left { timing self.new ≡ record (timing self.old) { entries = without id self.old.entries } }
        ensures stopped { (past : List TimerOp) → StandsFor self.old past → StandsFor self.new (Stop id ∷ past) }
        ensures moves { MovesWithin result self.old self.new }
    {
        self.moves = 0;
        match self.places.get(&id).copied() {
            Some(place) => {
                self.moves = heap::take_out(&mut self.heap, &mut self.places, place);
                true
            }
            None => false,
        }
    }

    /// Takes out the waiting timer that is least by its time, and among equal times by the order of setting, if that
    /// time is not above `now`. The answer is its time and its id.
    pub fn pop_due(&mut self, now: u64) -> Option<(u64, u64)>
        ensures answer { result ≡ option_map (λ e. (e.at, e.id)) (popped now self.old.entries) }
        ensures left { timing self.new ≡ record (timing self.old) {
          entries = left_by (popped now self.old.entries) self.old.entries;
        } }
        ensures popped { (past : List TimerOp) → StandsFor self.old past → StandsFor self.new (PopDue now ∷ past) }
        ensures moves { MovesWithin (is_some result) self.old self.new }
    {
        self.moves = 0;
        match self.heap.first().copied() {
            Some(first) if first.at <= now => {
                self.moves = heap::take_out(&mut self.heap, &mut self.places, 0);
                Some((first.at, first.id))
            }
            _ => None,
        }
    }

    /// The least time of the waiting timers, if any waits.
    pub fn next(&self) -> Option<u64>
        ensures { result ≡ next_time self.now.entries }
    {
        heap::first_time(&self.heap)
    }

    /// How many timers wait.
    pub fn len(&self) -> usize
        ensures { result ≡ length self.now.entries }
    {
        self.heap.len()
    }

    /// How many exchanges of two places the last `set`, `stop` or `pop_due` made, where the last entry's move to a
    /// place that was left is one. It is 0 where that call took nothing in and nothing out.
    pub fn last_moves(&self) -> u32
        ensures { result ≡ self.now.moves }
    {
        self.moves
    }
}
