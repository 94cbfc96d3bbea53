ghost use Rattle.std.specs.Prelude.{◌≡◌, ◌&&◌, None, is_none, is_some, option_map};
ghost use Rattle.std.specs.Option.{option_copied};
ghost use Rattle.context_tree.specs.Context.{parent_of, follows, can_cancel, own_deadline, own_value, own_due, cause_or};

use crate::error::{Cause, CtxErr};
use crate::id::CtxId;

/// How a context was made.
#[derive(Debug, Drop)]
pub(crate) enum Kind<C, V> {
    /// By `background`: it has no parent and is never ended.
    Background,
    /// By `with_cancel`.
    Cancel {
        parent: CtxId,
    },
    /// By `with_deadline`, due from the moment `at` on.
    Deadline {
        parent: CtxId,
        at: u64,
        cause: Option<C>,
    },
    /// By `with_value`.
    Value {
        parent: CtxId,
        key: u32,
        value: V,
    },
    /// By `without_cancel`: nothing ends it.
    WithoutCancel {
        parent: CtxId,
    },
}

impl<C, V> Kind<C, V> {
    /// The context that it derives from.
    pub(crate) fn parent(&self) -> Option<CtxId>
        ensures { result ≡ parent_of self.now }
    {
        match self {
            Kind::Background => None,
            Kind::Cancel { parent } => Some(*parent),
            Kind::Deadline { parent, .. } => Some(*parent),
            Kind::Value { parent, .. } => Some(*parent),
            Kind::WithoutCancel { parent } => Some(*parent),
        }
    }

    /// The slot of the context that it derives from.
    pub(crate) fn parent_key(&self) -> Option<usize>
        ensures { result ≡ option_map (λ p. p.1) (parent_of self.now) }
    {
        match self.parent() {
            Some(parent) => Some(parent.slot),
            None => None,
        }
    }

    /// The context whose end is its end too.
    pub(crate) fn follows(&self) -> Option<CtxId>
        ensures { result ≡ follows self.now }
    {
        match self {
            Kind::Background | Kind::WithoutCancel { .. } => None,
            Kind::Cancel { parent } => Some(*parent),
            Kind::Deadline { parent, .. } => Some(*parent),
            Kind::Value { parent, .. } => Some(*parent),
        }
    }

    /// Its own deadline.
    pub(crate) fn deadline(&self) -> Option<u64>
        ensures { result ≡ own_deadline self.now }
    {
        match self {
            Kind::Deadline { at, .. } => Some(*at),
            _ => None,
        }
    }

    /// Whether `cancel` can end it.
    pub(crate) fn can_cancel(&self) -> bool
        ensures { result ≡ can_cancel self.now }
    {
        matches!(self, Kind::Cancel { .. } | Kind::Deadline { .. })
    }

    /// Its own value at a key.
    pub(crate) fn value_at(&self, key: u32) -> Option<&V>
        ensures { option_copied result ≡ own_value key self.now }
    {
        match self {
            Kind::Value {
                key: own,
                value,
                ..
            } if *own == key => Some(value),
            _ => None,
        }
    }
}

impl<C: Copy, V> Kind<C, V> {
    /// The deadline of the context of that id, made in this way, if the moment has reached it.
    pub(crate) fn due(&self, id: CtxId, now: u64) -> Option<Due<C>>
        ensures { result ≡ own_due now (id, self.now) }
    {
        match self {
            Kind::Deadline { at, cause, .. } if *at <= now => Some(Due {
                member: id,
                at: *at,
                cause: *cause,
            }),
            _ => None,
        }
    }
}

/// A deadline that is reached: whose, when, and the cause that it gives.
#[derive(Clone, Copy)]
pub(crate) struct Due<C> {
    pub(crate) member: CtxId,
    pub(crate) at: u64,
    pub(crate) cause: Option<C>,
}

/// The error and the cause of an ended context.
#[derive(Clone, Copy, Debug)]
pub(crate) struct Ending<C> {
    pub(crate) error: CtxErr,
    pub(crate) cause: Cause<C>,
}

impl<C: Copy> Ending<C> {
    /// The end by that error: its cause is the one that was given, or the error itself.
    pub(crate) fn of(error: CtxErr, cause: Option<C>) -> Ending<C>
        ensures { result ≡ record { error = error; cause = cause_or error cause } }
    {
        let cause = match cause {
            Some(given) => Cause::Given(given),
            None => Cause::Plain(error),
        };
        Ending { error, cause }
    }
}

/// The contexts next to one in the tree, by their keys: the first and the last that derive from it, and, of those that
/// derive from the same one, the one made before it and the one made after it.
#[derive(Clone, Copy, Debug)]
pub(crate) struct Links {
    pub(crate) first: Option<usize>,
    pub(crate) last: Option<usize>,
    pub(crate) prev: Option<usize>,
    pub(crate) next: Option<usize>,
}

impl Links {
    /// The links of a new context, made after this sibling.
    pub(crate) fn after(prev: Option<usize>) -> Links
        ensures { result ≡ record { first = None; last = None; prev = prev; next = None } }
    {
        Links {
            first: None,
            last: None,
            prev,
            next: None,
        }
    }
}

/// A context: its number by creation, how it was made, its ending if it is ended, the least deadline that it has by
/// itself or through a context that it follows, and the contexts next to it.
#[derive(Debug, Drop)]
pub(crate) struct Node<C, V> {
    pub(crate) number: u64,
    pub(crate) kind: Kind<C, V>,
    pub(crate) ending: Option<Ending<C>>,
    pub(crate) deadline: Option<u64>,
    pub(crate) links: Links,
}

impl<C, V> Node<C, V> {
    /// Whether it is not ended, and ends with its parent.
    pub(crate) fn ends_with_parent(&self) -> bool
        ensures { result ≡ (is_none self.now.ending && is_some (follows self.now.kind)) }
    {
        self.ending.is_none() && self.kind.follows().is_some()
    }
}
