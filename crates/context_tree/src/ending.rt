//! The walk by the links that ends a context and those that follow it.
ghost use Rattle.std.specs.Prelude.{◌≡◌, ◌<◌, ◌+◌, ◌++◌, ◌∷◌, [], true, false, List, ℕ, is_some, Some, length};
ghost use Rattle.timer_heap.specs.Timers.{timing, without};
ghost use Rattle.context_tree.specs.Links.{slot_of, number_in, parent_in, links_in, child_at};
ghost use Rattle.context_tree.specs.declared.node.Node.{Node};
ghost use Rattle.context_tree.specs.Context.{TreeOp, Advances, own_due};
ghost use Rattle.context_tree.specs.Tree.{StandsFor};
ghost use Rattle.context_tree.specs.Walks.{id_in, is_in, is_live_at, is_ended_with, EndsAt, IsDueAt, IsReachedAt, IsReady, Start, IsWalk, IsWalkingOn, IsWalked};

use crate::error::CtxErr;
use crate::id::CtxId;
use crate::node::{Due, Ending, Node};
use crate::queue::Queue;
use slab::Slab;
use timer_heap::Timers;
use timer_heap::laws::first_due_law;

/// Ends a context that is not ended, and those that follow it, and returns how many contexts it looked at: this one,
/// and the children of each that it ended. Those that it ends wait to be handed out from then on, so their queue is
/// also the list of those whose children are still to be looked at.
pub(crate) fn end<C: Copy, V>(
    nodes: &mut Slab<Node<C, V>>,
    done: &mut Queue,
    timers: &mut Timers,
    target: CtxId,
    ending: Ending<C>,
) -> u64
    requires ready { IsReady nodes.old.slots done.old.items done.old.room }
    requires live { is_live_at nodes.old.slots target.1 ≡ true }
    requires number { number_in nodes.old.slots target.1 ≡ target.0 }
    ensures walked { IsWalked (record { slots = nodes.old.slots; done = done.old.items; timers = timing timers.old; target = target.1; ending = ending }) nodes.new.slots done.new.items (timing timers.new) result }
    ensures ready { IsReady nodes.new.slots done.new.items done.new.room }
{
    end_one(nodes, done, timers, target, ending);
    let mut visits = 1;
    let mut next = Some(target.slot);
    while let Some(key) = next {
        let looked = end_children(nodes, done, timers, key, ending);
        next = done.after(key);
        visits += looked;
    }
    visits
}

/// Ends each context whose time has come, the earliest first, and those that follow it.
pub(crate) fn end_due<C: Copy, V>(
    nodes: &mut Slab<Node<C, V>>,
    done: &mut Queue,
    timers: &mut Timers,
    now: u64,
)
    requires ready { IsReady nodes.old.slots done.old.items done.old.room }
    requires reached { IsReachedAt nodes.old.slots done.old.items (timing timers.old) }
    ensures stands { (made visits : ℕ) (past : List (TreeOp C V)) → StandsFor (record { slots = nodes.old.slots; done = done.old.items; timers = timing timers.old; made = made; visits = visits }) past
        → StandsFor (record { slots = nodes.new.slots; done = done.new.items; timers = timing timers.new; made = made; visits = visits }) (Advances now ∷ past) }
    ensures ready { IsReady nodes.new.slots done.new.items done.new.room }
{
    first_due_law();
    while let Some((_, key)) = timers.pop_due(now) {
        let (id, due) = due_at(nodes, key as usize, now);
        let how = Ending::of(CtxErr::DeadlineExceeded, due.cause);
        end(nodes, done, timers, id, how);
    }
}

// The context in a slot, and its own deadline, which the moment has reached.
fn due_at<C: Copy, V>(nodes: &Slab<Node<C, V>>, key: usize, now: u64) -> (CtxId, Due<C>)
    requires { IsDueAt nodes.now.slots key now }
    ensures id { result.0 ≡ id_in nodes.now.slots key }
    ensures due { (n : Node C V) → slot_of nodes.now.slots key ≡ Some n → own_due now (id_in nodes.now.slots key, n.kind) ≡ Some result.1 }
{
    let node = &nodes[key];
    let id = CtxId {
        number: node.number,
        slot: key,
    };
    match node.kind.due(id, now) {
        Some(due) => (id, due),
        None => unreachable!(),
    }
}

// Ends those children of a node that follow it and are not ended, and returns how many children it has.
fn end_children<C: Copy, V>(
    nodes: &mut Slab<Node<C, V>>,
    done: &mut Queue,
    timers: &mut Timers,
    key: usize,
    ending: Ending<C>,
) -> u64
    requires ready { IsReady nodes.old.slots done.old.items done.old.room }
    requires there { is_some (slot_of nodes.old.slots key) ≡ true }
    ensures walked { (s : Start C V) (keys visited front : List ℕ) → s.ending ≡ ending
        → is_in key keys ≡ true → is_in key front ≡ false
        → IsWalk s nodes.old.slots done.old.items (timing timers.old) keys visited front key 0
        → IsWalkingOn s nodes.new.slots done.new.items (timing timers.new) keys visited front key None result }
    ensures ready { IsReady nodes.new.slots done.new.items done.new.room }
    ensures room { done.new.room ≡ done.old.room }
{
    let mut visits = 0;
    let mut next = nodes[key].links.first;
    while let Some(child) = next {
        let node = &nodes[child];
        let id = CtxId {
            number: node.number,
            slot: child,
        };
        let ends = node.ends_with_parent();
        next = node.links.next;
        visits += 1;
        if ends {
            end_one(nodes, done, timers, id, ending);
        }
    }
    visits
}

// Ends one context: it waits to be handed out, and is no longer timed.
fn end_one<C: Copy, V>(
    nodes: &mut Slab<Node<C, V>>,
    done: &mut Queue,
    timers: &mut Timers,
    id: CtxId,
    ending: Ending<C>,
)
    requires ready { IsReady nodes.old.slots done.old.items done.old.room }
    requires live { is_live_at nodes.old.slots id.1 ≡ true }
    ensures ends { EndsAt nodes.old.slots nodes.new.slots id.1 ending }
    ensures done { done.new.items ≡ done.old.items ++ id ∷ [] }
    ensures timers { timing timers.new ≡ record (timing timers.old) { entries = without id.1 timers.old.entries } }
    ensures ready { IsReady nodes.new.slots done.new.items done.new.room }
    ensures room { done.new.room ≡ done.old.room }
{
    nodes[id.slot].ending = Some(ending);
    done.push(id);
    timers.stop(id.slot as u64);
}
