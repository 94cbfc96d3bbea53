ghost use Rattle.std.specs.Borrow.{ftrue};
ghost use Rattle.std.specs.Prelude.{◌≡◌, List, [], ◌∷◌, ◌++◌};
ghost use Rattle.loop_model.specs.Streams.{ShareValue, share_value};

use crate::backend::Backend;
use connect_codec::Outcome;
use gateway_core::Job;
use std::marker::Model;
use wires::Wire;

/// The shares that jobs had of a stream, in order. Only proofs read them: they take no memory.
#[derive(Drop)]
pub(crate) struct Shares {
    pub(crate) ghost items: { List ShareValue },
}

impl Model for Shares {
    ghost also_owns = { λ _. ftrue };
}

// It owns nothing.
unsafe impl Send for Shares {}

/// The share of a stream that a job has had since the last one ended, and the outcome that is recorded for it.
#[derive(Clone, Copy, Drop)]
pub(crate) struct Share<'a, W: Wire> {
    pub(crate) stream: &'a Backend<W>,
    pub(crate) job: &'a Job,
    pub(crate) outcome: &'a Option<Outcome>,
}

impl Shares {
    /// None yet.
    pub(crate) fn new() -> Shares
        ensures { result.items ≡ [] }
    {
        Shares {}
    }

    /// These, and then this one.
    pub(crate) fn and<W: Wire>(&self, _share: &Share<'_, W>) -> Shares
        ensures { result.items ≡ self.now.items
            ++ share_value _share.now.job.now.job _share.now.stream.now.stream.turns _share.now.outcome.now ∷ [] }
    {
        Shares {}
    }
}
