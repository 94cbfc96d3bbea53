//! The contexts that are ended and wait to be handed out: a list through places, one for each slot.
ghost use Rattle.std.specs.Prelude.{◌≡◌, ◌≤◌, ◌<◌, ◌^◌, ◌++◌, ◌∷◌, [], ℕ, List, filter, not, length, true, false, is_none, IfNone, IfSome, OnOk, if◌then◌else◌};
ghost use Rattle.std.specs.Option.{option_to_list};
ghost use Rattle.context_tree.specs.Context.{Id, same};
ghost use Rattle.context_tree.specs.Walks.{first_key, is_in, keys_of};
ghost use Rattle.context_tree.specs.Queue.{is_below, joined, place_at};

use crate::id::CtxId;
use std::alloc::{AllocError, Global};
use std::marker::Model;

/// The place of a slot in the queue: the number of the context there, if it waits, and the slots of those that wait
/// next to it.
#[derive(Clone, Copy, Debug)]
pub(crate) struct Place {
    pub(crate) number: Option<u64>,
    pub(crate) before: Option<usize>,
    pub(crate) after: Option<usize>,
}

impl Place {
    const EMPTY: Place = Place {
        number: None,
        before: None,
        after: None,
    };
}

/// Contexts that wait, in the order in which they came, each in a slot of its own. One is put in behind, and any is
/// taken out, without a look at the others.
#[derive(Drop)]
pub(crate) struct Queue {
    // one for each slot that there is room for
    places: Vec<Place>,
    // the slots of the one that came first and of the one that came last
    first: Option<usize>,
    last: Option<usize>,
}

impl Model for Queue {
    ghost use Rattle.std.specs.Prelude.{length};
    ghost use Rattle.context_tree.specs.Queue.{QueueValue, IsQueue, items_in, place_at};

    ghost Value = { QueueValue };

    ghost view = { λ q. record { items = items_in q.places.items q.first; room = length q.places.items } };

    ghost invariant = { λ q. IsQueue (place_at q.places.items) q.first q.last (items_in q.places.items q.first) };
}

impl Queue {
    /// None wait, and there is room for none. Later ones are kept on this allocator.
    pub(crate) fn new(alloc: Global) -> Queue
        ensures { result ≡ record { items = []; room = 0 } }
    {
        Queue {
            places: Vec::new(alloc),
            first: None,
            last: None,
        }
    }

    /// Makes room for those in slots below this.
    pub(crate) fn reserve(&mut self, slots: usize) -> Result<(), AllocError>
        ensures room { OnOk result (slots ≤ self.new.room) }
        ensures items { self.new.items ≡ self.old.items }
        ensures grown { self.old.room ≤ self.new.room }
    {
        if slots <= self.places.len() {
            return Ok(());
        }
        self.places.resize(slots, Place::EMPTY)
    }

    /// Puts one behind the others.
    pub(crate) fn push(&mut self, id: CtxId)
        requires room { id.1 < self.old.room }
        requires apart { is_in id.1 (keys_of self.old.items) ≡ false }
        ensures items { self.new.items ≡ self.old.items ++ id ∷ [] }
        ensures room { self.new.room ≡ self.old.room }
    {
        let slot = id.slot;
        self.places[slot] = Place {
            number: Some(id.number),
            before: self.last,
            after: None,
        };
        join(&mut self.places, self.last, Some(slot));
        self.first = end_past(self.last, self.first, Some(slot));
        self.last = Some(slot);
    }

    /// The first, if one waits.
    pub(crate) fn first(&self) -> Option<CtxId>
        ensures first { IfSome result (λ id. (rest : List Id) × (self.now.items ≡ id ∷ rest)) }
        ensures none { IfNone result (self.now.items ≡ []) }
    {
        let slot = self.first?;
        let Some(number) = self.places[slot].number else {
            unreachable!()
        };
        Some(CtxId { number, slot })
    }

    /// Takes out the first, if one waits.
    pub(crate) fn pop(&mut self) -> Option<CtxId>
        ensures items { self.old.items ≡ option_to_list result ++ self.new.items }
        ensures none { IfNone result (self.old.items ≡ []) }
        ensures room { self.new.room ≡ self.old.room }
    {
        let slot = self.first?;
        let Some(number) = self.places[slot].number else {
            unreachable!()
        };
        self.take(slot);
        Some(CtxId { number, slot })
    }

    /// Takes out the one of that id, if it waits.
    pub(crate) fn remove(&mut self, id: CtxId)
        ensures items { self.new.items ≡ filter (λ x. not (same x id)) self.old.items }
        ensures room { self.new.room ≡ self.old.room }
    {
        let Some(place) = self.places.get(id.slot) else {
            return;
        };
        if place.number == Some(id.number) {
            self.take(id.slot);
        }
    }

    /// The slot of the one behind the one in this slot. So those that wait can be gone through, also while more come.
    pub(crate) fn after(&self, slot: usize) -> Option<usize>
        requires { is_in slot (keys_of self.now.items) ≡ true }
        ensures next { (front back : List Id) (x : Id) → self.now.items ≡ front ++ x ∷ back → x.1 ≡ slot → result ≡ first_key (keys_of back) }
        ensures small { self.now.room < 2 ^ 63 }
    {
        self.places[slot].after
    }

    // Takes out the one in this slot, and links those next to it past it.
    fn take(&mut self, slot: usize)
        requires { is_in slot (keys_of self.old.items) ≡ true }
        ensures items { (front back : List Id) (x : Id) → self.old.items ≡ front ++ x ∷ back → x.1 ≡ slot → self.new.items ≡ front ++ back }
        ensures room { self.new.room ≡ self.old.room }
    {
        let place = self.places[slot];
        self.places[slot] = Place::EMPTY;
        join(&mut self.places, place.before, place.after);
        self.first = end_past(place.before, self.first, place.after);
        self.last = end_past(place.after, self.last, place.before);
    }
}

// Names the places of two slots to each other, as far as there are two.
fn join(places: &mut [Place], before: Option<usize>, after: Option<usize>)
    requires before { is_below before (length places.old) ≡ true }
    requires after { is_below after (length places.old) ≡ true }
    ensures joined { (k : ℕ) → place_at places.new k ≡ joined before after k (place_at places.old k) }
    ensures len { length places.new ≡ length places.old }
{
    if let Some(slot) = before {
        places[slot].after = after;
    }
    if let Some(slot) = after {
        places[slot].before = before;
    }
}

// An end of the queue once a place has changed: it is the new one, unless one waits between the place and that end.
fn end_past(beside: Option<usize>, end: Option<usize>, new: Option<usize>) -> Option<usize>
    ensures { result ≡ (if is_none beside then new else end) }
{
    match beside {
        Some(_) => end,
        None => new,
    }
}
