//! A binary heap of timers in a vector, beside an ordered map from each id to its place in the vector.
ghost use Rattle.std.specs.Prelude.{◌≡◌, ◌≢◌, ◌<◌, None, Some, length, option_map, slice_get, IfOk, OnErr, MatchOption};
ghost use Rattle.std.specs.Ordering.{nat_cmp};
ghost use Rattle.std.specs.BTreeMap as tree;
ghost use Rattle.timer_heap.specs.Heap.{is_before, IsHeap, IsHeapBut, LeadsBelow, IsLed, IsToRise, IsToSink, ArePlaced, IsPut, Exchanged, Rises, Settles, Added, TakenOut, Unchanged};

use std::alloc::AllocError;
use std::collections::BTreeMap;

/// A timer that waits: its time in milliseconds, the id that it was set under, and how many were set before it.
#[derive(Clone, Copy, Debug)]
pub(crate) struct Entry {
    pub(crate) at: u64,
    pub(crate) id: u64,
    pub(crate) number: u64,
}

impl Entry {
    fn is_before(&self, other: &Entry) -> bool
        ensures { result ≡ is_before self.now other.now }
    {
        self.at < other.at || (self.at == other.at && self.number < other.number)
    }
}

/// Adds an entry of an id that has no place. The answer is the count of exchanges. Where memory is refused nothing
/// changes.
pub(crate) fn add(
    heap: &mut Vec<Entry>,
    places: &mut BTreeMap<u64, usize>,
    entry: Entry,
) -> Result<u32, AllocError>
    requires ordered { IsHeap heap.old.items }
    requires placed { ArePlaced heap.old.items (tree.get nat_cmp places.old) }
    requires free { tree.get nat_cmp places.old entry.id ≡ None }
    ensures added { IfOk result (λ moves. Added entry heap.old.items heap.new.items (tree.get nat_cmp places.new) moves) }
    ensures unchanged { OnErr result (Unchanged heap.old.items heap.new.items (tree.get nat_cmp places.old) (tree.get nat_cmp places.new)) }
{
    heap.reserve(1)?;
    let place = heap.len();
    if places.insert(entry.id, place).is_err() {
        return Err(AllocError);
    }
    heap.push_reserved(entry);
    Ok(settle(heap, places, place))
}

/// Takes out the entry at this place: the last one fills the hole. The answer is the count of exchanges, with that one.
pub(crate) fn take_out(
    heap: &mut Vec<Entry>,
    places: &mut BTreeMap<u64, usize>,
    place: usize,
) -> u32
    requires ordered { IsHeap heap.old.items }
    requires placed { ArePlaced heap.old.items (tree.get nat_cmp places.old) }
    requires within { place < length heap.old.items }
    ensures { TakenOut place heap.old.items heap.new.items (tree.get nat_cmp places.new) result }
{
    let gone = heap.swap_remove(place);
    places.remove(&gone.id);
    if place == heap.len() {
        return 0;
    }
    put_place(places, heap[place].id, place);
    1 + settle(heap, places, place)
}

/// The time of the first entry, if there is one.
pub(crate) fn first_time(heap: &[Entry]) -> Option<u64>
    ensures { result ≡ option_map (λ e. e.at) (slice_get heap.now 0) }
{
    heap.first().map(|entry| entry.at)
}

// Brings the entry at this place, the only one that may be out of order, to where it belongs.
fn settle(heap: &mut [Entry], places: &mut BTreeMap<u64, usize>, place: usize) -> u32
    requires ordered { IsHeapBut place heap.old }
    requires placed { ArePlaced heap.old (tree.get nat_cmp places.old) }
    requires within { place < length heap.old }
    ensures { Settles heap.old heap.new (tree.get nat_cmp places.new) result }
{
    let moves = sift_up(heap, places, place);
    if moves > 0 {
        return moves;
    }
    sift_down(heap, places, place)
}

fn sift_up(heap: &mut [Entry], places: &mut BTreeMap<u64, usize>, place: usize) -> u32
    requires ordered { IsHeapBut place heap.old }
    requires placed { ArePlaced heap.old (tree.get nat_cmp places.old) }
    requires within { place < length heap.old }
    ensures { Rises place heap.old heap.new (tree.get nat_cmp places.new) result }
{
    let mut at = place;
    let mut moves = 0;
    while let Some(parent) = later_parent(heap, at) {
        exchange(heap, places, at, parent);
        at = parent;
        moves += 1;
    }
    moves
}

fn sift_down(heap: &mut [Entry], places: &mut BTreeMap<u64, usize>, place: usize) -> u32
    requires ordered { IsHeapBut place heap.old }
    requires led { IsLed place heap.old }
    requires placed { ArePlaced heap.old (tree.get nat_cmp places.old) }
    requires within { place < length heap.old }
    ensures { Settles heap.old heap.new (tree.get nat_cmp places.new) result }
{
    let mut at = place;
    let mut moves = 0;
    while let Some(child) = earlier_child(heap, at) {
        exchange(heap, places, at, child);
        at = child;
        moves += 1;
    }
    moves
}

// The place of the parent, if the entry here comes before it.
fn later_parent(heap: &[Entry], place: usize) -> Option<usize>
    requires { place < length heap.now }
    ensures { MatchOption result (IsLed place heap.now) (λ parent. IsToRise place parent heap.now) }
{
    if place == 0 {
        return None;
    }
    let parent = (place - 1) / 2;
    if heap[place].is_before(&heap[parent]) {
        Some(parent)
    } else {
        None
    }
}

// The place of the first of the children, if that one comes before the entry here.
fn earlier_child(heap: &[Entry], place: usize) -> Option<usize>
    requires { place < length heap.now }
    ensures { MatchOption result (LeadsBelow place heap.now) (λ child. IsToSink place child heap.now) }
{
    if place >= heap.len() / 2 {
        return None;
    }
    let left = 2 * place + 1;
    let right = left + 1;
    let first = if right < heap.len() && heap[right].is_before(&heap[left]) {
        right
    } else {
        left
    };
    if heap[first].is_before(&heap[place]) {
        Some(first)
    } else {
        None
    }
}

// Two entries change places.
fn exchange(heap: &mut [Entry], places: &mut BTreeMap<u64, usize>, one: usize, other: usize)
    requires placed { ArePlaced heap.old (tree.get nat_cmp places.old) }
    requires one_within { one < length heap.old }
    requires other_within { other < length heap.old }
    requires apart { one ≢ other }
    ensures { Exchanged one other heap.old heap.new (tree.get nat_cmp places.new) }
{
    heap.swap(one, other);
    put_place(places, heap[one].id, one);
    put_place(places, heap[other].id, other);
}

// Gives an id that has a place another one.
fn put_place(places: &mut BTreeMap<u64, usize>, id: u64, place: usize)
    requires { tree.get nat_cmp places.old id ≢ None }
    ensures { IsPut id (Some place) (tree.get nat_cmp places.old) (tree.get nat_cmp places.new) }
{
    if let Some(kept) = places.get_mut(&id) {
        *kept = place;
    }
}
