//! The contexts of calls in a tree.
ghost use Rattle.std.specs.Prelude.{◌≡◌, ◌<◌, ◌∷◌, [], List, true, IfOk, OnErr, is_some, length, unwrap_or};
ghost use Rattle.context_tree.specs.Context.{Id, Makes, Releases, held};
ghost use Rattle.context_tree.specs.Tree.{StandsFor};
ghost use Rattle.call_contexts.specs.Sound.{Op, TreeLaws, BranchesGo, IsFree, IsPlaced, IsSound, AreFree, StandsAlike, kind_of, moment_of, with_call, let_go, why};

use crate::life::Life;
use after_funcs::AfterFuncs;
use context_tree::laws::{chain_law, child_law, new_law, number_law};
use context_tree::{Cause, CtxError, CtxId, Tree};
use std::alloc::AllocError;

/// The key of a call's request id.
pub(crate) const REQUEST_ID: u32 = 0;

/// What the laws of the tree say. It does nothing.
pub(crate) fn tree_laws<C, V>()
    ensures { TreeLaws C V }
{
    new_law::<C, V>();
    chain_law::<C, V>();
    child_law::<C, V>();
    number_law::<C, V>();
}

/// Makes the contexts of a call: one that has its request id, where there is one, and from it its own.
pub(crate) fn make<C: Copy, V: Drop>(
    tree: &mut Tree<C, V>,
    conn: CtxId,
    deadline: Option<u64>,
    now: u64,
    request_id: Option<V>,
) -> Result<(CtxId, Option<CtxId>), AllocError>
    ensures made { IfOk result (λ made. (past : List (Op C V)) → StandsFor tree.old past
        → StandsFor tree.new (with_call made.0 made.1 conn deadline now request_id past)) }
    ensures held { IfOk result (λ made. is_some made.1 ≡ is_some request_id) }
    ensures refused { OnErr result (TreeLaws C V → (past : List (Op C V)) → StandsFor tree.old past → StandsAlike tree.new past) }
{
    let Some(request_id) = request_id else {
        let Ok(ctx) = derive(tree, conn, deadline, now) else {
            return Err(AllocError);
        };
        return Ok((ctx, None));
    };
    let Ok(holder) = tree.with_value(conn, REQUEST_ID, request_id) else {
        return Err(AllocError);
    };
    let Ok(ctx) = derive(tree, holder, deadline, now) else {
        free(tree, holder);
        return Err(AllocError);
    };
    Ok((ctx, Some(holder)))
}

/// A context with a deadline, where there is one.
fn derive<C: Copy, V: Drop>(
    tree: &mut Tree<C, V>,
    parent: CtxId,
    deadline: Option<u64>,
    now: u64,
) -> Result<CtxId, CtxError>
    ensures made { IfOk result (λ ctx. (past : List (Op C V)) → StandsFor tree.old past
        → StandsFor tree.new (Makes ctx (kind_of parent deadline) (moment_of deadline now) ∷ past)) }
    ensures unchanged { OnErr result (tree.new ≡ tree.old) }
{
    match deadline {
        Some(at) => tree.with_deadline(parent, at, now, None),
        None => tree.with_cancel(parent),
    }
}

/// Lets go of the contexts of a call: its own, and then the one that has its request id.
pub(crate) fn release<C: Copy, V: Drop>(tree: &mut Tree<C, V>, ctx: CtxId, holder: Option<CtxId>)
    ensures { (past : List (Op C V)) → StandsFor tree.old past → AreFree ctx holder past → StandsFor tree.new (let_go ctx holder past) }
{
    free(tree, ctx);
    if let Some(id) = holder {
        free(tree, id);
    }
}

/// Lets go of a context from which none derives.
pub(crate) fn free<C: Copy, V: Drop>(tree: &mut Tree<C, V>, ctx: CtxId)
    ensures { (past : List (Op C V)) → StandsFor tree.old past → IsFree ctx past → StandsFor tree.new (Releases ctx ∷ past) }
{
    tree.release(ctx);
}

/// Lets go of the contexts of all branches of the call at that place.
pub(crate) fn free_branches<C: Copy, V: Drop, H>(
    tree: &mut Tree<C, V>,
    hooks: &AfterFuncs<H>,
    calls: &mut Vec<Life>,
    place: usize,
)
    requires { place < length calls.old.items }
    ensures length { length calls.new.items ≡ length calls.old.items }
    ensures gone { (base : Id) (conns : List Id) (id : Id) → IsSound tree.old hooks.now base conns calls.old.items → IsPlaced id place calls.old.items
        → BranchesGo id tree.old tree.new hooks.now base conns calls.old.items calls.new.items }
{
    // the clause alone looks at the hooks
    let _ = hooks;
    while let Some(twig) = calls[place].twigs.take_last() {
        free(tree, twig.ctx);
    }
}

/// What ended a context that is held, if anything did.
pub(crate) fn cause_of<C: Copy, V: Drop>(tree: &Tree<C, V>, ctx: CtxId) -> Option<Cause<C>>
    ensures { (past : List (Op C V)) → StandsFor tree.now past → is_some (held ctx past) ≡ true
        → result ≡ why ctx past }
{
    match tree.cause(ctx) {
        Ok(cause) => cause,
        Err(_) => None,
    }
}
