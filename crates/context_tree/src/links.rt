//! How the nodes are linked: each names its first and its last child, and the siblings made before and after it.
ghost use Rattle.std.specs.Prelude.{◌≡◌, ◌<◌, Some, None, is_some, option_map, option_and_then};
ghost use Rattle.slab.specs.Slab.{ContainsKey, HasRoomFor};
ghost use Rattle.context_tree.specs.Context.{parent_of};
ghost use Rattle.context_tree.specs.Links.{IsLinked, IsThere, ArePlaced, KeepsOthers, Relinks, bare, put, keep, where_none, links_in, parent_in, slot_of};

use crate::node::{Links, Node};
use slab::Slab;

/// Names the first child of a node, if there is that node.
fn set_first<C, V>(nodes: &mut Slab<Node<C, V>>, key: Option<usize>, first: Option<usize>)
    requires { IsThere nodes.old.slots key }
    ensures { Relinks nodes.old.slots nodes.new.slots (put key first) keep keep keep }
{
    if let Some(key) = key {
        nodes[key].links.first = first;
    }
}

/// Names the last child of a node, if there is that node.
fn set_last<C, V>(nodes: &mut Slab<Node<C, V>>, key: Option<usize>, last: Option<usize>)
    requires { IsThere nodes.old.slots key }
    ensures { Relinks nodes.old.slots nodes.new.slots keep (put key last) keep keep }
{
    if let Some(key) = key {
        nodes[key].links.last = last;
    }
}

/// Names the sibling before a node, if there is that node.
fn set_prev<C, V>(nodes: &mut Slab<Node<C, V>>, key: Option<usize>, prev: Option<usize>)
    requires { IsThere nodes.old.slots key }
    ensures { Relinks nodes.old.slots nodes.new.slots keep keep (put key prev) keep }
{
    if let Some(key) = key {
        nodes[key].links.prev = prev;
    }
}

/// Names the sibling after a node, if there is that node.
fn set_next<C, V>(nodes: &mut Slab<Node<C, V>>, key: Option<usize>, next: Option<usize>)
    requires { IsThere nodes.old.slots key }
    ensures { Relinks nodes.old.slots nodes.new.slots keep keep keep (put key next) }
{
    if let Some(key) = key {
        nodes[key].links.next = next;
    }
}

/// This key, where there is no such link.
fn where_none(link: Option<usize>, key: Option<usize>) -> Option<usize>
    ensures { result ≡ where_none link key }
{
    match link {
        Some(_) => None,
        None => key,
    }
}

/// The last child of a node, if there is that node.
fn last_child<C, V>(nodes: &Slab<Node<C, V>>, key: Option<usize>) -> Option<usize>
    ensures { result ≡ option_and_then (λ k. (links_in nodes.now.slots k).last) key }
{
    let node = nodes.get(key?)?;
    node.links.last
}

/// Whether some context derives from the one at this key.
pub(crate) fn has_children<C, V>(nodes: &Slab<Node<C, V>>, key: usize) -> bool
    requires { ContainsKey nodes.now key }
    ensures { result ≡ is_some (links_in nodes.now.slots key).first }
{
    nodes[key].links.first.is_some()
}

/// Puts in a new node, behind the last child of its parent, and returns its key.
pub(crate) fn insert<C, V>(nodes: &mut Slab<Node<C, V>>, node: Node<C, V>) -> usize
    requires room { HasRoomFor nodes.old 1 }
    requires linked { IsLinked nodes.old.slots }
    requires placed { ArePlaced nodes.old.slots node.number }
    requires parent_there { IsThere nodes.old.slots (option_map (λ p. p.1) (parent_of node.kind)) }
    ensures key { result ≡ nodes.old.vacant_key }
    ensures within { result < nodes.old.capacity }
    ensures was_vacant { slot_of nodes.old.slots result ≡ None }
    ensures put { bare (slot_of nodes.new.slots result) ≡ bare (Some node) }
    ensures others { KeepsOthers nodes.old.slots nodes.new.slots result }
    ensures linked { IsLinked nodes.new.slots }
{
    let parent = node.kind.parent_key();
    let last = last_child(nodes, parent);
    let key = nodes.insert_reserved(Node {
        links: Links::after(last),
        ..node
    });
    append(nodes, key, parent, last);
    key
}

/// Takes out a node that has no children, and links its siblings past it.
pub(crate) fn remove<C: Drop, V: Drop>(nodes: &mut Slab<Node<C, V>>, key: usize)
    requires there { ContainsKey nodes.old key }
    requires linked { IsLinked nodes.old.slots }
    requires parent_there { IsThere nodes.old.slots (parent_in nodes.old.slots key) }
    requires childless { (links_in nodes.old.slots key).first ≡ None }
    ensures gone { slot_of nodes.new.slots key ≡ None }
    ensures others { KeepsOthers nodes.old.slots nodes.new.slots key }
    ensures linked { IsLinked nodes.new.slots }
{
    unlink(nodes, key);
    let _ = nodes.try_remove(key);
}

// Names a new child, whose own links stand, behind the last one of its parent.
fn append<C, V>(
    nodes: &mut Slab<Node<C, V>>,
    key: usize,
    parent: Option<usize>,
    last: Option<usize>,
)
    requires parent_there { IsThere nodes.old.slots parent }
    requires last_there { IsThere nodes.old.slots last }
    ensures { Relinks nodes.old.slots nodes.new.slots (put (where_none last parent) (Some key)) (put parent (Some key)) keep (put last (Some key)) }
{
    set_next(nodes, last, Some(key));
    set_last(nodes, parent, Some(key));
    set_first(nodes, where_none(last, parent), Some(key));
}

// Links the siblings of a node past it.
fn unlink<C, V>(nodes: &mut Slab<Node<C, V>>, key: usize)
    requires there { ContainsKey nodes.old key }
    requires parent_there { IsThere nodes.old.slots (parent_in nodes.old.slots key) }
    requires prev_there { IsThere nodes.old.slots (links_in nodes.old.slots key).prev }
    requires next_there { IsThere nodes.old.slots (links_in nodes.old.slots key).next }
    ensures { Relinks nodes.old.slots nodes.new.slots
        (put (where_none (links_in nodes.old.slots key).prev (parent_in nodes.old.slots key)) (links_in nodes.old.slots key).next)
        (put (where_none (links_in nodes.old.slots key).next (parent_in nodes.old.slots key)) (links_in nodes.old.slots key).prev)
        (put (links_in nodes.old.slots key).next (links_in nodes.old.slots key).prev)
        (put (links_in nodes.old.slots key).prev (links_in nodes.old.slots key).next) }
{
    let links = nodes[key].links;
    let parent = nodes[key].kind.parent_key();
    set_next(nodes, links.prev, links.next);
    set_prev(nodes, links.next, links.prev);
    set_first(nodes, where_none(links.prev, parent), links.next);
    set_last(nodes, where_none(links.next, parent), links.prev);
}
