ghost use Rattle.std.specs.Prelude.{All, ◌≡◌, ◌∷◌, [], ◌++◌, List, None as Nothing, Some, true, false, is_some, IfNone, IfOk, IfErr, IfSome, OnErr, OnOk, map};
ghost use Rattle.std.specs.List.{list_any};
ghost use Rattle.std.specs.Option.{option_copied};
ghost use Rattle.context_tree.specs.Context.{same};
ghost use Rattle.call_contexts.specs.Standing.{IsNoSooner, AreNoSooner, has_deadline, has_ended, is_over, ended_branch, empty, opened, begun, expired, cancelled, all_ended, closed, gone, with_standing, with_hook, hook_for, request_for, ended_call, branched, unbranched, AreApart, is_fresh, is_call, is_conn, call_for, ctx_for, first_of, IsCallOf};
ghost use Rattle.after_funcs.specs.Hooks.{Operation, AfterFunc, registered};
ghost use Rattle.after_funcs.specs.Stands.{StandsFor as HooksStand};
ghost use Rattle.call_contexts.specs.Index.{Sets, indexed};

use crate::calls::{self, take};
use crate::contexts::{REQUEST_ID, cause_of, free, make, release, tree_laws};
use crate::ends::first_ended;
use crate::index::Index;
use crate::life::Life;
use crate::twigs::{Twigs, if_before};
use after_funcs::laws::order_law;
use after_funcs::{AfterFuncs, AfterId, Hook};
use context_tree::{Cause, CtxId, Tree};
use gateway_model::CallId;
use std::alloc::{AllocError, Global};
use std::marker::Model;

/// The contexts of a gateway's connections and calls, and the hooks of its calls.
///
/// Each connection has a context, and each call one that derives from its connection's: it ends at the call's deadline,
/// with its connection, or when all is drained. A call has one hook, which is called once or dropped uncalled. `C` is
/// the type of the causes for which connections and all end, `V` that of a call's request id.
#[derive(Drop)]
pub struct CallContexts<C, V, H> {
    tree: Tree<C, V>,
    hooks: AfterFuncs<H>,
    // all end with it
    base: CtxId,
    conns: Vec<CtxId>,
    // by beginning, and so by the numbers of their contexts
    calls: Vec<Life>,
    // each call's context, by the call's id
    index: Index,
}

impl<C, V, H> Model for CallContexts<C, V, H> {
    ghost use Rattle.call_contexts.specs.Standing.{WithHooks, seen, on_ctx};
    ghost use Rattle.std.specs.Prelude.{map};
    ghost use Rattle.call_contexts.specs.Sound.{IsSound, Rising, names_of, numbers_of};
    ghost use Rattle.call_contexts.specs.Index.{IsIndexed};

    ghost Value = { WithHooks C V H };

    ghost view = { λ s. record {
      standing = seen s.tree.slots s.base s.conns.items s.calls.items;
      hooks = map on_ctx s.hooks.waiting.items;
    } };

    ghost invariant = { λ s. record {
      sound : IsSound s.tree s.hooks s.base s.conns.items s.calls.items;
      rising : Rising (numbers_of s.calls.items);
      indexed : IsIndexed s.index (names_of s.calls.items);
    } };
}

impl<C: Copy, V: Drop, H: Drop> CallContexts<C, V, H> {
    /// No connections and no calls.
    pub fn new(alloc: Global) -> Result<CallContexts<C, V, H>, AllocError>
        ensures { IfOk result (λ contexts. contexts ≡ record { standing = empty; hooks = [] }) }
    {
        tree_laws::<C, V>();
        let mut tree = Tree::new(alloc);
        let Ok(root) = tree.background() else {
            return Err(AllocError);
        };
        let Ok(base) = tree.with_cancel(root) else {
            return Err(AllocError);
        };
        Ok(CallContexts {
            tree,
            hooks: AfterFuncs::new(alloc),
            base,
            conns: Vec::new(alloc),
            calls: Vec::new(alloc),
            index: Index::new(alloc),
        })
    }

    /// A connection opens, with a context of its own.
    pub fn open(&mut self) -> Result<CtxId, AllocError>
        ensures stands { IfOk result (λ id. self.new ≡ with_standing (opened id self.old.standing) self.old) }
        ensures fresh { IfOk result (λ id. is_fresh id self.old.standing ≡ true) }
        ensures unchanged { OnErr result (self.new ≡ self.old) }
    {
        self.conns.reserve(1)?;
        let Ok(conn) = self.tree.with_cancel(self.base) else {
            return Err(AllocError);
        };
        self.conns.push_reserved(conn);
        Ok(conn)
    }

    /// A call of a new id begins on a connection, with its context and its hook. A hook that is refused comes back.
    pub fn begin(
        &mut self,
        id: &CallId,
        conn: CtxId,
        deadline: Option<u64>,
        now: u64,
        request_id: Option<V>,
        hook: H,
    ) -> Result<CtxId, H>
        requires known { is_conn conn self.old.standing.conns ≡ true }
        requires named { call_for id.now self.old.standing.calls ≡ Nothing }
        ensures stands { IfOk result (λ ctx. self.new ≡ with_hook ctx hook (begun ctx id.now conn deadline now request_id self.old.standing) self.old) }
        ensures fresh { IfOk result (λ id. is_fresh id self.old.standing ≡ true) }
        ensures back { IfErr result (λ h. h ≡ hook) }
        ensures unchanged { OnErr result (self.new ≡ self.old) }
    {
        if self.calls.reserve(1).is_err() {
            return Err(hook);
        }
        let Ok(made) = make(&mut self.tree, conn, deadline, now, request_id) else {
            return Err(hook);
        };
        let (ctx, holder) = made;
        match keep(&mut self.index, &mut self.hooks, id, ctx, hook) {
            Ok(hook) => {
                let twigs = Twigs::new(*self.calls.allocator());
                self.calls.push_reserved(Life {
                    id: *id,
                    ctx,
                    holder,
                    conn,
                    deadline,
                    hook,
                    twigs,
                });
                Ok(ctx)
            }
            Err(hook) => {
                release(&mut self.tree, ctx, holder);
                Err(hook)
            }
        }
    }

    /// The context of the call.
    pub fn ctx_for(&self, id: &CallId) -> Option<CtxId>
        ensures { result ≡ ctx_for id.now self.now.standing.calls }
    {
        self.index.find(id)
    }

    /// A call of the connection of that number, if one stands.
    pub fn first_call(&self, number: u64) -> Option<CallId>
        ensures its { IfSome result (λ id. IsCallOf number id self.now.standing.calls) }
        ensures none { IfNone result (first_of number self.now.standing.calls ≡ Nothing) }
    {
        self.index.first(number)
    }

    /// The request id of a call, if it has one.
    pub fn request_id(&self, id: &CallId) -> Option<&V>
        ensures { option_copied result ≡ request_for id.now self.now.standing.calls }
    {
        let Some(ctx) = self.index.find(id) else {
            return None;
        };
        match self.tree.value(ctx, REQUEST_ID) {
            Ok(request_id) => request_id,
            Err(_) => unreachable!(),
        }
    }

    /// A moment has come: the calls end whose deadlines it has reached.
    pub fn expire(&mut self, now: u64)
        ensures { self.new ≡ with_standing (expired now self.old.standing) self.old }
    {
        self.tree.advance(now);
    }

    /// The connection ends for this cause, and with it its calls (Go `context`, `WithCancelCause`).
    pub fn cancel(&mut self, conn: CtxId, cause: C)
        requires { is_conn conn self.old.standing.conns ≡ true }
        ensures { self.new ≡ with_standing (cancelled conn cause self.old.standing) self.old }
    {
        self.tree.cancel(conn, Some(cause));
    }

    /// All ends for this cause, what stands and what comes.
    pub fn drain(&mut self, cause: C)
        ensures { self.new ≡ with_standing (all_ended cause self.old.standing) self.old }
    {
        self.tree.cancel(self.base, Some(cause));
    }

    /// What ended the call, if it stands and anything did (Go `context`, `Cause`): its deadline, or what its
    /// connection or all ended for.
    pub fn ended(&self, id: &CallId) -> Option<Cause<C>>
        ensures { result ≡ ended_call id.now self.now.standing.calls }
    {
        match calls::named(&self.calls, &self.index, id) {
            Some(life) => cause_of(&self.tree, life.ctx),
            None => None,
        }
    }

    /// The branch of the call which ended before the call, or while that has not: of the deadlines of those that have
    /// ended, the call's among them, it has the least, of equal ones the call's stands first, and then that of the
    /// branch that started first. None where that is the call's, or no branch has ended.
    pub fn ended_branch(&self, id: &CallId) -> Option<u32>
        ensures { result ≡ ended_branch id.now self.now.standing.calls }
    {
        let life = calls::named(&self.calls, &self.index, id)?;
        let twig = life.twigs.soonest()?;
        if cause_of(&self.tree, twig.ctx).is_some() {
            if_before(twig, life.deadline)
        } else {
            None
        }
    }

    /// A call that has ended, by its own context or by that of a branch, if one is left.
    pub fn first_ended(&mut self) -> Option<CallId>
        ensures same { self.new ≡ self.old }
        ensures its { IfSome result (λ id. list_any (has_ended id) self.old.standing.calls ≡ true) }
        ensures none { IfNone result (list_any is_over self.old.standing.calls ≡ false) }
    {
        first_ended(&mut self.tree, &self.hooks, &self.calls)
    }

    /// The least deadline of the calls and their branches that have not ended, if any has one: no moment before it
    /// ends one.
    pub fn next_deadline(&self) -> Option<u64>
        ensures calls { All (IsNoSooner result) self.now.standing.calls }
        ensures branches { All (AreNoSooner result) self.now.standing.calls }
        ensures its { IfSome result (λ first. list_any (has_deadline first) self.now.standing.calls ≡ true) }
    {
        self.tree.next_deadline()
    }

    /// A branch of a call that has a timeout starts, with a context that ends at this moment or with its call's.
    pub fn branch(&mut self, call: CtxId, branch: u32, at: u64, now: u64) -> Result<(), AllocError>
        requires { is_call call self.old.standing.calls ≡ true }
        ensures stands { IfOk result (λ _. self.new ≡ with_standing (branched call branch at now self.old.standing) self.old) }
        ensures unchanged { OnErr result (self.new ≡ self.old) }
    {
        let Some(place) = calls::place(&self.calls, call) else {
            unreachable!();
        };
        self.calls[place]
            .twigs
            .start(&mut self.tree, call, branch, at, now)
    }

    /// Lets go of the context of the first branch of that number of a call, if it has one.
    pub fn let_branch_go(&mut self, call: CtxId, branch: u32)
        ensures { self.new ≡ with_standing (unbranched call branch self.old.standing) self.old }
    {
        let Some(place) = calls::place(&self.calls, call) else {
            return;
        };
        if let Some(twig) = self.calls[place].twigs.take(branch) {
            free(&mut self.tree, twig.ctx);
        }
    }

    /// Calls the hook of a call with what ended it, and lets go of its contexts and those of its branches. None where
    /// no call has that context.
    pub fn end<E: Drop, O>(&mut self, ctx: CtxId, event: E) -> Option<Result<O, AllocError>>
    where
        H: Hook<E, O>,
        requires { H.allows event }
        ensures duty { IfSome result (λ ran. IfOk ran (λ answer. H.meets event answer)) }
        ensures called { (h : H) → hook_for ctx self.old.hooks ≡ Some h → IfSome result (λ ran. H.gives h event ran) }
        ensures ran { is_some result ≡ is_call ctx self.old.standing.calls }
        ensures left { self.new ≡ gone ctx self.old }
    {
        let Some(_) = take(
            &mut self.tree,
            &self.hooks,
            &mut self.calls,
            &mut self.index,
            ctx,
        ) else {
            return None;
        };
        self.hooks.fire(ctx);
        let ran = self.hooks.run_next(event);
        match ran {
            Some((_, answer)) => Some(answer),
            None => None,
        }
    }

    /// Drops the hook of a call uncalled, and lets go of its contexts and those of its branches.
    pub fn abandon(&mut self, ctx: CtxId)
        ensures { self.new ≡ gone ctx self.old }
    {
        order_law::<H>();
        let Some(hook) = take(
            &mut self.tree,
            &self.hooks,
            &mut self.calls,
            &mut self.index,
            ctx,
        ) else {
            return;
        };
        self.hooks.stop(hook);
    }

    /// Lets go of a connection's context, whose calls are gone.
    pub fn close(&mut self, conn: CtxId)
        requires known { is_conn conn self.old.standing.conns ≡ true }
        requires none { list_any (λ c. same c.conn conn) self.old.standing.calls ≡ false }
        ensures { self.new ≡ with_standing (closed conn self.old.standing) self.old }
    {
        self.conns.retain(|other| *other != conn);
        free(&mut self.tree, conn);
    }

    /// No two calls have one context, and each call has its hook. It does nothing.
    pub fn apart_law(&self)
        ensures apart { AreApart self.now.standing.calls }
        ensures hooked { map (λ h. h.0) self.now.hooks ≡ map (λ c. c.id) self.now.standing.calls }
    {
        let _calls = &self.calls;
    }
}

/// Keeps the context of a new call under its id, and its hook. A hook that is refused comes back.
fn keep<H>(
    index: &mut Index,
    hooks: &mut AfterFuncs<H>,
    id: &CallId,
    ctx: CtxId,
    hook: H,
) -> Result<AfterId, H>
    ensures hooked { (past : List (Operation H)) → HooksStand hooks.old past → OnOk result (HooksStand hooks.new (AfterFunc ctx false hook ∷ past)) }
    ensures number { (past : List (Operation H)) → HooksStand hooks.old past → IfOk result (λ number. number ≡ registered past) }
    ensures named { OnOk result (Sets id.now (Some ctx) index.old index.new) }
    ensures back { (past : List (Operation H)) → HooksStand hooks.old past → IfErr result (λ h. h ≡ hook) }
    ensures unhooked { (past : List (Operation H)) → HooksStand hooks.old past → OnErr result (HooksStand hooks.new past) }
    ensures unnamed { OnErr result (indexed id.now index.old ≡ Nothing → Sets id.now Nothing index.old index.new) }
{
    if index.add(id, ctx).is_err() {
        return Err(hook);
    }
    match hooks.after_func(ctx, false, hook) {
        Ok(number) => Ok(number),
        Err(refused) => {
            index.forget(id);
            Err(refused.0)
        }
    }
}
