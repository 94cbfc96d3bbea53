//! A list of calls, looked up by their contexts and by their ids.
ghost use Rattle.std.specs.Prelude.{◌≡◌, ◌<◌, List, IfNone, IfSome, None as Nothing, length, option_map};
ghost use Rattle.context_tree.specs.Context.{Id};
ghost use Rattle.call_contexts.specs.Sound.{IsPlaced, IsSound, Rising, life_at, life_for, names_of, numbers_of};
ghost use Rattle.call_contexts.specs.Index.{HasLeft, IsIndexed};

use crate::contexts::{free_branches, release};
use crate::index::Index;
use crate::life::Life;
use after_funcs::{AfterFuncs, AfterId};
use context_tree::{CtxId, Tree};
use gateway_model::CallId;

/// The call of that context.
pub(crate) fn find(calls: &[Life], ctx: CtxId) -> Option<&Life>
    requires { Rising (numbers_of calls.now) }
    ensures { option_map (λ l. l.now) result ≡ life_at ctx calls.now }
{
    let place = place(calls, ctx)?;
    Some(&calls[place])
}

/// Where the call of that context stands. They stand by the numbers of their contexts.
pub(crate) fn place(calls: &[Life], ctx: CtxId) -> Option<usize>
    requires { Rising (numbers_of calls.now) }
    ensures some { IfSome result (λ i. i < length calls.now) }
    ensures its { IfSome result (λ i. IsPlaced ctx i calls.now) }
    ensures none { IfNone result (life_at ctx calls.now ≡ Nothing) }
{
    let number = ctx.number();
    let Ok(place) = calls.binary_search_by_key(&number, |life| life.ctx.number()) else {
        return None;
    };
    if calls[place].ctx == ctx {
        Some(place)
    } else {
        None
    }
}

/// Takes the call of that context out of the list and the index, if it stands there, lets go of its contexts and those
/// of its branches, and gives its hook.
pub(crate) fn take<C: Copy, V: Drop, H>(
    tree: &mut Tree<C, V>,
    hooks: &AfterFuncs<H>,
    calls: &mut Vec<Life>,
    index: &mut Index,
    ctx: CtxId,
) -> Option<AfterId>
    requires { Rising (numbers_of calls.old.items) }
    ensures left { IfSome result (λ hook. (base : Id) (conns : List Id) → IsSound tree.old hooks.now base conns calls.old.items
        → HasLeft ctx hook tree.old tree.new hooks.now base conns calls.old.items calls.new.items index.old index.new) }
    ensures none { IfNone result (life_at ctx calls.old.items ≡ Nothing) }
    ensures same_tree { IfNone result (tree.new ≡ tree.old) }
    ensures same_calls { IfNone result (calls.new.items ≡ calls.old.items) }
    ensures same_index { IfNone result (index.new ≡ index.old) }
{
    let place = place(calls, ctx)?;
    free_branches(tree, hooks, calls, place);
    let life = calls.remove(place);
    index.forget(&life.id);
    release(tree, ctx, life.holder);
    Some(life.hook)
}

/// The call of that id.
pub(crate) fn named<'a>(calls: &'a [Life], index: &Index, id: &CallId) -> Option<&'a Life>
    requires rising { Rising (numbers_of calls.now) }
    requires indexed { IsIndexed index.now (names_of calls.now) }
    ensures { option_map (λ l. l.now) result ≡ life_for id.now calls.now }
{
    let ctx = index.find(id)?;
    find(calls, ctx)
}
