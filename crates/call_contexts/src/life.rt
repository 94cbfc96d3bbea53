use crate::twigs::Twigs;
use after_funcs::AfterId;
use context_tree::CtxId;
use gateway_model::CallId;

/// A call that stands, by its id: its context, the one that has its request id, that of its connection, when it ends
/// by itself, its hook, and its branches that are out and have a timeout.
#[derive(Drop)]
pub(crate) struct Life {
    pub(crate) id: CallId,
    pub(crate) ctx: CtxId,
    pub(crate) holder: Option<CtxId>,
    pub(crate) conn: CtxId,
    pub(crate) deadline: Option<u64>,
    pub(crate) hook: AfterId,
    pub(crate) twigs: Twigs,
}
