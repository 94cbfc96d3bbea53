ghost use Rattle.std.specs.Prelude.{◌≡◌, List, IsTrue, true, false, ℕ, option_map, option_and_then, nat_le, ◌&&◌, is_some, Some, ◌↔◌};
ghost use Rattle.std.specs.Option.{option_copied, option_or, option_map_or};
ghost use Rattle.context_tree.specs.Context.{TreeOp, line, nearest, follows, own_due, own_deadline, sooner, expiry, parent_of};
ghost use Rattle.context_tree.specs.declared.node.Node.{Node};
ghost use Rattle.context_tree.specs.Tree.{node_at, ending_in, deadline_in, told, Keeps, IsKept};

use crate::error::CtxErr;
use crate::id::CtxId;
use crate::node::{Ending, Kind, Node};
use slab::Slab;

/// The node of that id.
pub(crate) fn node<C, V>(nodes: &Slab<Node<C, V>>, id: CtxId) -> Option<&Node<C, V>>
    ensures { option_copied result ≡ node_at nodes.now.slots id }
{
    match nodes.get(id.slot) {
        Some(node) if node.number == id.number => Some(node),
        _ => None,
    }
}

/// Whether the parent, if there is one, is known.
pub(crate) fn knows_parent<C, V>(nodes: &Slab<Node<C, V>>, parent: Option<CtxId>) -> bool
    ensures { result ≡ option_map_or (λ p. is_some (node_at nodes.now.slots p)) parent true }
{
    match parent {
        Some(parent) => node(nodes, parent).is_some(),
        None => true,
    }
}

/// The value at a key of the nearest context on the whole line of parents.
pub(crate) fn value<C, V>(nodes: &Slab<Node<C, V>>, id: CtxId, key: u32) -> Option<&V>
    requires { IsKept nodes.now.slots id }
    ensures { (past : List (TreeOp C V)) → Keeps nodes.now.slots past → option_copied result ≡ nearest key (line id past) }
{
    let mut next = Some(id);
    while let Some(at) = next {
        let node = node(nodes, at)?;
        if let Some(value) = node.kind.value_at(key) {
            return Some(value);
        }
        next = node.kind.parent();
    }
    None
}

/// How a context made in this way is ended by its own making.
pub(crate) fn ending_of_new<C: Copy, V>(
    nodes: &Slab<Node<C, V>>,
    id: CtxId,
    kind: &Kind<C, V>,
    now: u64,
) -> Option<Ending<C>>
    ensures { result ≡ option_or (option_and_then (λ p. ending_in nodes.now.slots p) (follows kind.now)) (option_map (λ d. told (expiry 0 d)) (own_due now (id, kind.now))) }
{
    if let Some(parent) = kind.follows() {
        if let Some(ending) = ending_at(nodes, parent) {
            return Some(ending);
        }
    }
    let due = kind.due(id, now)?;
    Some(Ending::of(CtxErr::DeadlineExceeded, due.cause))
}

/// The deadline of a context made in this way.
pub(crate) fn deadline_of_new<C: Copy, V>(
    nodes: &Slab<Node<C, V>>,
    kind: &Kind<C, V>,
) -> Option<u64>
    ensures { result ≡ sooner (own_deadline kind.now) (option_and_then (λ p. deadline_in nodes.now.slots p) (follows kind.now)) }
{
    match (kind.deadline(), deadline_above(nodes, kind)) {
        (Some(own), Some(other)) => Some(own.min(other)),
        (Some(own), None) => Some(own),
        (None, other) => other,
    }
}

/// The deadline of the context that one made in this way follows.
pub(crate) fn deadline_above<C, V>(nodes: &Slab<Node<C, V>>, kind: &Kind<C, V>) -> Option<u64>
    ensures { result ≡ option_and_then (λ p. deadline_in nodes.now.slots p) (follows kind.now) }
{
    match kind.follows() {
        Some(parent) => deadline_at(nodes, parent),
        None => None,
    }
}

/// The ending of that context.
fn ending_at<C: Copy, V>(nodes: &Slab<Node<C, V>>, id: CtxId) -> Option<Ending<C>>
    ensures { result ≡ ending_in nodes.now.slots id }
{
    node(nodes, id)?.ending
}

/// The deadline of that context.
fn deadline_at<C, V>(nodes: &Slab<Node<C, V>>, id: CtxId) -> Option<u64>
    ensures { result ≡ deadline_in nodes.now.slots id }
{
    node(nodes, id)?.deadline
}
