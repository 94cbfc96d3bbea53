ghost use Rattle.std.specs.Prelude.{◌≡◌};

use std::marker::Model;

/// Names a context of a tree, and is never given again, also after a release.
///
/// It has the number of the context, by creation, and the slot that it is kept in. A slot is used again after a
/// release, a number never: so an old id is told from a new one.
#[derive(Clone, Copy, PartialEq, Eq, Debug)]
pub struct CtxId {
    pub(crate) number: u64,
    pub(crate) slot: usize,
}

impl Model for CtxId {
    ghost use Rattle.std.specs.Prelude.{ℕ};

    ghost Value = { ℕ × ℕ };

    ghost view = { λ i. (i.number, i.slot) };

    ghost inverse = { λ v. record { number = v.0; slot = v.1 } };
}

impl CtxId {
    /// The context's number by creation: one that is made later has a greater one.
    pub fn number(self) -> u64
        ensures { result ≡ self.0 }
    {
        self.number
    }
}
