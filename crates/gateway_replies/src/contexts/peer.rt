ghost use Rattle.std.specs.Prelude.{◌≡◌, ◌∷◌, [], IfNone, IfSome};

use context_tree::CtxId;

/// A connection: its context, and the hooks of the calls that it may still begin.
#[derive(Drop)]
pub(crate) struct Peer<H> {
    pub(crate) number: u64,
    pub(crate) ctx: CtxId,
    pub(crate) stock: Vec<H>,
}

/// Takes the first of these hooks.
pub(crate) fn take_first<H>(stock: &mut Vec<H>) -> Option<H>
    ensures first { IfSome result (λ hook. stock.old.items ≡ hook ∷ stock.new.items) }
    ensures none { IfNone result ((stock.old.items ≡ []) × (stock.new.items ≡ [])) }
{
    if stock.is_empty() {
        return None;
    }
    Some(stock.remove(0))
}
