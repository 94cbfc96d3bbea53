ghost use Rattle.std.specs.Prelude.{◌≡◌, [], IsTrue, ◌↔◌};
ghost use Rattle.std.specs.Cmp.{partial_equiv_from_equiv};
ghost use Rattle.std.specs.Cmp.Lexicographic.{pointwise, lists_equiv};
ghost use Rattle.error_document.specs.Details.{same_detail, same_detail-equiv};

use crate::detail::Detail;
use std::alloc::{AllocError, Global};
use std::marker::Model;

/// The details of an error, in order. Contracts see the list of them.
#[derive(Debug, Drop)]
pub struct Details {
    inner: Vec<Detail>,
}

impl Model for Details {
    ghost use Rattle.std.specs.Prelude.{List};
    ghost use Rattle.error_document.specs.declared.detail.Detail.{Detail};

    ghost Value = { List Detail };

    ghost view = { λ d. d.inner.items };
}

impl Details {
    /// No details, on this allocator.
    pub fn new(alloc: Global) -> Details
        ensures { result ≡ [] }
    {
        Details {
            inner: Vec::new(alloc),
        }
    }

    /// Takes the vector, with no copy.
    pub fn from_vec(inner: Vec<Detail>) -> Details
        ensures { result ≡ inner.items }
    {
        Details { inner }
    }

    /// Gives the vector back, with no copy.
    pub fn into_vec(self) -> Vec<Detail>
        ensures { result.items ≡ self }
    {
        let Details { inner } = self;
        inner
    }

    /// The details.
    pub fn as_slice(&self) -> &[Detail]
        ensures { result.now ≡ self.now }
    {
        self.inner.as_slice()
    }

    /// Whether there are none.
    pub fn is_empty(&self) -> bool
        ensures { IsTrue result ↔ (self.now ≡ []) }
    {
        self.inner.is_empty()
    }
}

impl Clone for Details {
    ghost is_clone = { λ details copy. copy ≡ details };

    fn clone(&self) -> Result<Self, AllocError> {
        let inner = self.inner.clone()?;
        Ok(Details { inner })
    }
}

impl PartialEq for Details {
    ghost eq = { pointwise same_detail };

    ghost laws = { partial_equiv_from_equiv (lists_equiv same_detail-equiv) };

    fn eq(&self, other: &Self) -> bool {
        self.inner == other.inner
    }
}

impl Eq for Details {
    ghost laws = { lists_equiv same_detail-equiv };
}
