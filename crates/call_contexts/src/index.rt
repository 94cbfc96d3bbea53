//! The contexts of the calls, found by the calls' ids.
ghost use Rattle.std.specs.Prelude.{◌≡◌, [], ℕ, IfNone, IfSome, None as Nothing, OnErr, OnOk, Some as Just, is_some, true};
ghost use Rattle.gateway_model.specs.Past.{call_id};
ghost use Rattle.call_contexts.specs.Index.{Sets, indexed};

use context_tree::CtxId;
use gateway_model::{CallId, ConnId};
use std::alloc::{AllocError, Global};
use std::collections::BTreeMap;
use std::marker::Model;

/// The context of each call that stands, by the numbers of its connection and of its request.
#[derive(Drop)]
pub(crate) struct Index {
    map: BTreeMap<(u64, u64), CtxId>,
}

impl Model for Index {
    ghost use Rattle.std.specs.Prelude.{List};
    ghost use Rattle.call_contexts.specs.Index.{Entry};

    ghost Value = { List Entry };

    ghost view = { λ i. i.map.entries };
}

impl Index {
    /// Of no call.
    pub(crate) fn new(alloc: Global) -> Index
        ensures { result ≡ [] }
    {
        Index {
            map: BTreeMap::new(alloc),
        }
    }

    /// The context of the call of that id.
    pub(crate) fn find(&self, id: &CallId) -> Option<CtxId>
        ensures { result ≡ indexed id.now self.now }
    {
        self.map.get(&key(id)).copied()
    }

    /// A call of the connection of that number.
    pub(crate) fn first(&self, number: u64) -> Option<CallId>
        ensures its { IfSome result (λ id. (id.conn ≡ number) × (is_some (indexed id self.now) ≡ true)) }
        ensures none { IfNone result ((request : ℕ) → indexed (call_id number request) self.now ≡ Nothing) }
    {
        let (key, _) = self.map.range((number, 0)..).next()?;
        if key.0 == number {
            Some(CallId {
                conn: ConnId::of(number),
                request: key.1,
            })
        } else {
            None
        }
    }

    /// The call of that id has this context.
    pub(crate) fn add(&mut self, id: &CallId, ctx: CtxId) -> Result<(), AllocError>
        ensures added { OnOk result (Sets id.now (Just ctx) self.old self.new) }
        ensures unchanged { OnErr result (self.new ≡ self.old) }
    {
        self.map.insert(key(id), ctx)?;
        Ok(())
    }

    /// The call of that id is gone.
    pub(crate) fn forget(&mut self, id: &CallId)
        ensures { Sets id.now Nothing self.old self.new }
    {
        self.map.remove(&key(id));
    }
}

/// What a call is found by.
fn key(id: &CallId) -> (u64, u64)
    ensures { result ≡ (id.now.conn, id.now.request) }
{
    (id.conn.number(), id.request)
}
