//! A call that has ended, found by the context that ended.
ghost use Rattle.std.specs.Prelude.{◌≡◌, List};
ghost use Rattle.context_tree.specs.Context.{Id};
ghost use Rattle.context_tree.specs.Tree.{StandsFor};
ghost use Rattle.call_contexts.specs.Sound.{FindsEnded, IsSound, Op, Rising, numbers_of, owner_in};

use crate::calls::find;
use crate::life::Life;
use after_funcs::AfterFuncs;
use context_tree::{CtxId, Tree};
use gateway_model::CallId;

/// The first of these calls of which a context ended, its own or a branch's, in the order of their endings. Other
/// contexts that ended before it are passed over for good.
pub(crate) fn first_ended<C: Copy, V: Drop, H>(
    tree: &mut Tree<C, V>,
    hooks: &AfterFuncs<H>,
    calls: &[Life],
) -> Option<CallId>
    requires { Rising (numbers_of calls.now) }
    ensures { (base : Id) (conns : List Id) → IsSound tree.old hooks.now base conns calls.now
        → FindsEnded result tree.old tree.new hooks.now base conns calls.now }
{
    // the clause alone looks at the hooks
    let _ = hooks;
    while let Some(ctx) = tree.first_done() {
        if let Some(call) = owner(tree, calls, ctx) {
            return Some(call);
        }
        tree.next_done();
    }
    None
}

/// The call of that context, or else the call that it derives from: then it is that of a branch.
fn owner<C: Copy, V: Drop>(tree: &Tree<C, V>, calls: &[Life], ctx: CtxId) -> Option<CallId>
    requires { Rising (numbers_of calls.now) }
    ensures { (past : List (Op C V)) → StandsFor tree.now past → result ≡ owner_in past ctx calls.now }
{
    if let Some(life) = find(calls, ctx) {
        return Some(life.id);
    }
    let Ok(Some(parent)) = tree.parent(ctx) else {
        return None;
    };
    let life = find(calls, parent)?;
    Some(life.id)
}
