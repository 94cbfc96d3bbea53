use crate::id::AfterId;
use context_tree::CtxId;

/// A hook, with its number and the context whose end it waits for.
#[derive(Drop)]
pub(crate) struct Registration<H> {
    pub(crate) id: AfterId,
    pub(crate) ctx: CtxId,
    pub(crate) hook: H,
}
