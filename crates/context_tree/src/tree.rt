ghost use Rattle.std.specs.Prelude.{◌≡◌, ◌≤◌, ◌+◌, ◌++◌, ◌∷◌, [], List, true, false, Some, None, IfOk, IfErr, IfSome, IfNone, OnOk, OnErr, is_some, option_map, option_copied, ◌↔◌};
ghost use Rattle.std.specs.Option.{option_to_list};
ghost use Rattle.std.specs.Result.{result_ok};
ghost use Rattle.context_tree.specs.declared.node.Kind.{Kind};
ghost use Rattle.context_tree.specs.declared.node.Kind.TheVariants.{Background, Cancel, Deadline, Value, WithoutCancel};
ghost use Rattle.context_tree.specs.Context.{Id, TreeOp, Makes, Cancels, Advances, HandsOut, Releases, HasChild, IsFirstDone, held, is_waiting, parent_of, ending, deadline, value};
ghost use Rattle.context_tree.specs.Tree.{StandsFor, StandsAsBefore, Answers, IsMade, IsDeadline, IsFirstDeadline, IsRefused, left_to_hand_out, most_visits, if_held, is_ended_by_cancel};

use crate::error::{Cause, CtxErr, CtxError, Unknown};
use crate::id::CtxId;
use crate::node::{Ending, Kind, Links, Node};
use crate::queue::Queue;
use crate::released::Released;
use crate::{ended, ending, links, walk};
use slab::Slab;
use std::alloc::Global;
use std::marker::Model;
use timer_heap::Timers;
use timer_heap::laws::first_due_law;

const MOST_CONTEXTS: u64 = 1 << 62;

/// A tree of derived contexts (Go package `context`).
///
/// `C` is the type of the causes, `V` that of the values.
#[derive(Drop)]
pub struct Tree<C, V> {
    nodes: Slab<Node<C, V>>,
    // those that are ended and wait to be handed out, in the order of their endings; it has room for all contexts
    done: Queue,
    // when those that are not ended end by themselves, before what they follow does, each under its slot
    timers: Timers,
    made: u64,
    // how many contexts the walk of the last cancel looked at
    visits: u64,
}

impl<C, V> Model for Tree<C, V> {
    ghost use Rattle.std.specs.Prelude.{◌≡◌, ◌≤◌, ◌<◌, ◌^◌, ℕ, true, is_some};
    ghost use Rattle.timer_heap.specs.Timers.{timing};
    ghost use Rattle.context_tree.specs.Links.{IsLinked, slot_of};
    ghost use Rattle.context_tree.specs.Tree.{TreeValue, IsReached};

    ghost Value = { TreeValue C V };

    ghost view = { λ t. record { slots = t.nodes.slots; done = t.done.items; timers = timing t.timers; made = t.made; visits = t.visits } };

    ghost invariant = { λ t. record {
      reached : IsReached (record { slots = t.nodes.slots; done = t.done.items; timers = timing t.timers; made = t.made; visits = t.visits });
      linked : IsLinked t.nodes.slots;
      few : t.made ≤ 2 ^ 62;
      room : (k : ℕ) → is_some (slot_of t.nodes.slots k) ≡ true → k < t.done.room;
    } };
}

impl<C: Copy, V: Drop> Tree<C, V> {
    /// No contexts. Later ones are kept on this allocator.
    pub fn new(alloc: Global) -> Tree<C, V>
        ensures { StandsFor result [] }
    {
        Tree {
            nodes: Slab::new(alloc),
            done: Queue::new(alloc),
            timers: Timers::new(alloc),
            made: 0,
            visits: 0,
        }
    }

    /// A context with no parent, which is never ended.
    pub fn background(&mut self) -> Result<CtxId, CtxError>
        ensures { Answers self.old self.new Background 0 (λ e. e) result }
    {
        self.make(Kind::Background, 0).map_err(|refused| refused.1)
    }

    /// A context that ends with its parent, or once it is cancelled.
    pub fn with_cancel(&mut self, parent: CtxId) -> Result<CtxId, CtxError>
        ensures { Answers self.old self.new (Cancel parent) 0 (λ e. e) result }
    {
        self.make(Kind::Cancel { parent }, 0)
            .map_err(|refused| refused.1)
    }

    /// A context that ends with its parent, once it is cancelled, or once a moment reaches `at`. Where `now` has
    /// reached it, it is ended from the start.
    pub fn with_deadline(
        &mut self,
        parent: CtxId,
        at: u64,
        now: u64,
        cause: Option<C>,
    ) -> Result<CtxId, CtxError>
        ensures { Answers self.old self.new (Deadline parent at cause) now (λ e. e) result }
    {
        self.make(Kind::Deadline { parent, at, cause }, now)
            .map_err(|refused| refused.1)
    }

    /// A context that ends with its parent and has a value at a key. The value is given back beside an error.
    pub fn with_value(&mut self, parent: CtxId, key: u32, value: V) -> Result<CtxId, (V, CtxError)>
        ensures answers { Answers self.old self.new (Value parent key value) 0 (λ e. e.1) result }
        ensures given_back { IfErr result (λ e. e.0 ≡ value) }
    {
        match self.make(Kind::Value { parent, key, value }, 0) {
            Ok(id) => Ok(id),
            Err((kind, error)) => match kind {
                Kind::Value { value, .. } => Err((value, error)),
                _ => unreachable!(),
            },
        }
    }

    /// A context that has the values of its parent and is never ended.
    pub fn without_cancel(&mut self, parent: CtxId) -> Result<CtxId, CtxError>
        ensures { Answers self.old self.new (WithoutCancel parent) 0 (λ e. e) result }
    {
        self.make(Kind::WithoutCancel { parent }, 0)
            .map_err(|refused| refused.1)
    }

    fn make(&mut self, kind: Kind<C, V>, now: u64) -> Result<CtxId, (Kind<C, V>, CtxError)>
        ensures made { IfOk result (IsMade self.old self.new kind now) }
        ensures refused { IfErr result (λ e. IsRefused self.old kind e.1) }
        ensures unchanged { OnErr result (self.new ≡ self.old) }
        ensures keeps { OnErr result (StandsAsBefore self.old self.new) }
        ensures given_back { IfErr result (λ e. e.0 ≡ kind) }
    {
        if !walk::knows_parent(&self.nodes, kind.parent()) {
            return Err((kind, CtxError::Unknown));
        }
        if self.made >= MOST_CONTEXTS {
            return Err((kind, CtxError::Exhausted));
        }
        if self.nodes.reserve(1).is_err() || self.done.reserve(self.nodes.capacity()).is_err() {
            return Err((kind, CtxError::Memory));
        }
        let id = CtxId {
            number: self.made,
            slot: self.nodes.vacant_key(),
        };
        let ending = walk::ending_of_new(&self.nodes, id, &kind, now);
        let deadline = walk::deadline_of_new(&self.nodes, &kind);
        let time = ended::time_of_new(&kind, ending, walk::deadline_above(&self.nodes, &kind));
        if ended::set_timer(&mut self.timers, time, id.slot as u64).is_err() {
            return Err((kind, CtxError::Memory));
        }
        let node = Node {
            number: self.made,
            kind,
            ending,
            deadline,
            links: Links::after(None),
        };
        links::insert(&mut self.nodes, node);
        ended::add_new(&mut self.done, id, ending);
        self.made += 1;
        Ok(id)
    }

    /// Ends the context, and those that follow it, for this cause. True exactly where this call ended it: it is known,
    /// made by `with_cancel` or `with_deadline`, and not ended before. Else nothing changes.
    pub fn cancel(&mut self, id: CtxId, cause: Option<C>) -> bool
        ensures answer { (past : List (TreeOp C V)) → StandsFor self.old past → result ≡ is_ended_by_cancel id past }
        ensures cancelled { result ≡ true → (past : List (TreeOp C V)) → StandsFor self.old past → StandsFor self.new (Cancels id cause ∷ past) }
        ensures unchanged { result ≡ false → self.new ≡ record self.old { visits = 0 } }
        ensures keeps { result ≡ false → StandsAsBefore self.old self.new }
    {
        match walk::node(&self.nodes, id) {
            Some(node) if node.kind.can_cancel() && node.ending.is_none() => {
                let how = Ending::of(CtxErr::Canceled, cause);
                self.visits = ending::end(
                    &mut self.nodes,
                    &mut self.done,
                    &mut self.timers,
                    id,
                    how,
                );
                true
            }
            _ => {
                self.visits = 0;
                false
            }
        }
    }

    /// How many contexts the walk of the last `cancel` looked at. It is 0 where that answered false, or none was made.
    pub fn last_visits(&self) -> u64
        ensures is { result ≡ self.now.visits }
        ensures few { (past : List (TreeOp C V)) → StandsFor self.now past → result ≤ most_visits past }
    {
        self.visits
    }

    /// Ends each context whose deadline, or that of a context that it follows, is not above `now`.
    pub fn advance(&mut self, now: u64)
        ensures { (past : List (TreeOp C V)) → StandsFor self.old past → StandsFor self.new (Advances now ∷ past) }
    {
        ending::end_due(&mut self.nodes, &mut self.done, &mut self.timers, now);
    }

    /// The least deadline of the contexts that are not ended, if any has one: no moment before it ends a context.
    pub fn next_deadline(&self) -> Option<u64>
        ensures first { (past : List (TreeOp C V)) → StandsFor self.now past → IsFirstDeadline result past }
        ensures its { IfSome result (λ first. (past : List (TreeOp C V)) → StandsFor self.now past → IsDeadline first past) }
    {
        first_due_law();
        self.timers.next()
    }

    /// Hands out a context that is ended and not released, each once: one that an earlier operation ended before one
    /// that a later one ended, and, of those that one operation ended, the one whose cancel or deadline it was before
    /// the others.
    pub fn next_done(&mut self) -> Option<CtxId>
        ensures first { IfSome result (λ id. (past : List (TreeOp C V)) → StandsFor self.old past → IsFirstDone id past) }
        ensures handed { IfSome result (λ id. (past : List (TreeOp C V)) → StandsFor self.old past → StandsFor self.new (HandsOut id ∷ past)) }
        ensures none { IfNone result ((past : List (TreeOp C V)) → StandsFor self.old past → (x : Id) → is_waiting x past ≡ false) }
        ensures unchanged { IfNone result (self.new ≡ self.old) }
        ensures keeps { IfNone result (StandsAsBefore self.old self.new) }
        ensures fewer { IfSome result (λ id. left_to_hand_out self.old ≡ left_to_hand_out self.new + 1) }
        ensures next { self.old.done ≡ option_to_list result ++ self.new.done }
        ensures empty { IfNone result (self.old.done ≡ []) }
    {
        self.done.pop()
    }

    /// The context that is handed out next, if one waits for that.
    pub fn first_done(&self) -> Option<CtxId>
        ensures first { IfSome result (λ id. (past : List (TreeOp C V)) → StandsFor self.now past → IsFirstDone id past) }
        ensures next { IfSome result (λ id. (rest : List Id) × (self.now.done ≡ id ∷ rest)) }
        ensures none { IfNone result ((past : List (TreeOp C V)) → StandsFor self.now past → (x : Id) → is_waiting x past ≡ false) }
    {
        self.done.first()
    }

    /// Lets go of a context, unless one that is held derives from it. Its id is unknown from then on.
    pub fn release(&mut self, id: CtxId) -> Released
        ensures unknown { (past : List (TreeOp C V)) → StandsFor self.old past → (result ≡ Released.Unknown) ↔ (held id past ≡ None) }
        ensures has_children { result ≡ Released.HasChildren → (past : List (TreeOp C V)) → StandsFor self.old past → HasChild id past }
        ensures gone { result ≡ Released.Gone → (past : List (TreeOp C V)) → StandsFor self.old past → StandsFor self.new (Releases id ∷ past) }
        ensures unchanged { (result ≡ Released.Gone → ⊥) → self.new ≡ self.old }
        ensures keeps { (result ≡ Released.Gone → ⊥) → StandsAsBefore self.old self.new }
    {
        if walk::node(&self.nodes, id).is_none() {
            return Released::Unknown;
        }
        if links::has_children(&self.nodes, id.slot) {
            return Released::HasChildren;
        }
        links::remove(&mut self.nodes, id.slot);
        self.timers.stop(id.slot as u64);
        self.done.remove(id);
        Released::Gone
    }

    /// The context that it derives from, if there is one.
    pub fn parent(&self, id: CtxId) -> Result<Option<CtxId>, Unknown>
        ensures { (past : List (TreeOp C V)) → StandsFor self.now past → result_ok result ≡ option_map parent_of (held id past) }
    {
        let node = walk::node(&self.nodes, id).ok_or(Unknown)?;
        Ok(node.kind.parent())
    }

    /// Why the context was ended, if it is ended (Go `context`, `Context.Err`).
    pub fn err(&self, id: CtxId) -> Result<Option<CtxErr>, Unknown>
        ensures { (past : List (TreeOp C V)) → StandsFor self.now past → result_ok result ≡ if_held id past (option_map (λ e. e.error) (ending id past)) }
    {
        let node = walk::node(&self.nodes, id).ok_or(Unknown)?;
        Ok(node.ending.map(|ending| ending.error))
    }

    /// What the context was ended for, if it is ended (Go `context`, `Cause`).
    pub fn cause(&self, id: CtxId) -> Result<Option<Cause<C>>, Unknown>
        ensures { (past : List (TreeOp C V)) → StandsFor self.now past → result_ok result ≡ if_held id past (option_map (λ e. e.cause) (ending id past)) }
    {
        let node = walk::node(&self.nodes, id).ok_or(Unknown)?;
        Ok(node.ending.map(|ending| ending.cause))
    }

    /// The moment at which it ends at the latest, if there is one (Go `context`, `Context.Deadline`).
    pub fn deadline(&self, id: CtxId) -> Result<Option<u64>, Unknown>
        ensures { (past : List (TreeOp C V)) → StandsFor self.now past → result_ok result ≡ if_held id past (deadline id past) }
    {
        let node = walk::node(&self.nodes, id).ok_or(Unknown)?;
        Ok(node.deadline)
    }

    /// The value at a key, of the context itself or of the nearest that it derives from (Go `context`,
    /// `Context.Value`).
    pub fn value(&self, id: CtxId, key: u32) -> Result<Option<&V>, Unknown>
        ensures { (past : List (TreeOp C V)) → StandsFor self.now past → option_map option_copied (result_ok result) ≡ if_held id past (value id key past) }
    {
        let _node = walk::node(&self.nodes, id).ok_or(Unknown)?;
        Ok(walk::value(&self.nodes, id, key))
    }
}
