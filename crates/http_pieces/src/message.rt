ghost use Rattle.std.specs.Prelude.{◌≡◌, ℕ, IfOk};
ghost use Rattle.http_pieces.specs.Cut.{IsSingle};
ghost use Rattle.http_pieces.specs.Form.{Form, JudgesTo};

use std::alloc::{AllocError, Global};

/// A kind of message: what its heads are, and what each of them asks for. All else is read alike.
pub(crate) trait Message {
    /// What a reader keeps of a head.
    type Head: Drop;
    /// Why a stream is refused.
    type Fault: Drop;

    // A whole message, as contracts see it.
    ghost Whole: { Type 0 };

    ghost form: { Form Self.Fault Self.Head Self.Whole };

    /// The fault of a stream whose head does not end within the limit.
    fn too_large() -> Self::Fault
        ensures { (k : ℕ) → result ≡ (form.kind k).too_large };

    /// What the block asks for: as a head, a body of so many bytes; else its fault.
    fn judge(
        alloc: Global,
        block: &[u8],
    ) -> Result<Result<(Self::Head, u64), Self::Fault>, AllocError>
        ensures { IfOk result (JudgesTo form block.now) };

    ghost single: { (k : ℕ) → IsSingle (form.kind k) };
}
