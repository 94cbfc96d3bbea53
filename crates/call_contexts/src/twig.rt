use context_tree::CtxId;

/// A branch of a call that is out and has a timeout: its context, its number, and when it ends by itself.
#[derive(Clone, Copy, Drop)]
pub(crate) struct Twig {
    pub(crate) ctx: CtxId,
    pub(crate) branch: u32,
    pub(crate) at: u64,
}
