ghost use Rattle.std.specs.Borrow.{ftrue};
ghost use Rattle.std.specs.Prelude.{◌≡◌, ℕ, List, [], ◌∷◌, ◌++◌};

use std::marker::Model;

/// The names that a network took to look up, in order. Only proofs read them: they take no memory.
#[derive(Drop)]
pub struct NamesAsked {
    pub ghost items: { List (List ℕ) },
}

impl Model for NamesAsked {
    ghost also_owns = { λ _. ftrue };
}

// It owns nothing.
unsafe impl Send for NamesAsked {}

/// A name that is asked for. The proof by hand wants a value of one size, which a text alone is not.
#[derive(Clone, Copy, Drop)]
struct AskedName<'a> {
    text: &'a str,
}

impl NamesAsked {
    /// None yet.
    pub fn new() -> NamesAsked
        ensures { result.items ≡ [] }
    {
        NamesAsked {}
    }

    /// These, and then the name.
    pub fn and(&self, name: &str) -> NamesAsked
        ensures { result.items ≡ self.now.items ++ name.now ∷ [] }
    {
        self.with(&AskedName { text: name })
    }

    fn with(&self, _name: &AskedName<'_>) -> NamesAsked
        ensures { result.items ≡ self.now.items ++ _name.now.text.now ∷ [] }
    {
        NamesAsked {}
    }
}
