ghost use Rattle.std.specs.Borrow.{ftrue};
ghost use Rattle.std.specs.Prelude.{◌≡◌, List, [], ◌∷◌, ◌++◌};
ghost use Rattle.wires.specs.Turns.{Turn};
ghost use Rattle.wires.specs.Telling.{turn_of};

use crate::outbox::Outbox;
use crate::wire::PIECE;
use std::marker::Model;

/// What was done at a stream, in order. Only proofs read it: it takes no memory.
#[derive(Drop)]
pub(crate) struct Turns {
    pub(crate) ghost items: { List Turn },
}

impl Model for Turns {
    ghost also_owns = { λ _. ftrue };
}

// It owns nothing.
unsafe impl Send for Turns {}

/// One thing that was done.
// a turn can't own its bytes, which would be copied for it at run time
#[derive(Clone, Copy, Drop)]
pub(crate) enum Did<'a> {
    /// A read brought the first so many bytes of the piece.
    Came(&'a [u8; PIECE], usize),
    /// A read would have had to wait.
    Quiet,
    /// A read found the end, or failed.
    Over,
    /// A write took the first so many bytes that waited.
    Went(&'a Outbox, usize),
}

impl Turns {
    /// None yet.
    pub(crate) fn new() -> Turns
        ensures { result.items ≡ [] }
    {
        Turns {}
    }

    /// These, and then this one.
    pub(crate) fn and(&self, _turn: &Did<'_>) -> Turns
        ensures { result.items ≡ self.now.items ++ turn_of _turn.now ∷ [] }
    {
        Turns {}
    }
}
