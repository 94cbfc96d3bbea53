ghost use Rattle.std.specs.Prelude.{◌≡◌, ℕ, List, [], ◌++◌, length, nat_eq, IfOk, OnOk, OnErr, IsTrue, ◌↔◌};
ghost use Rattle.std.specs.Cmp.Lexicographic.{pointwise, nat_list_eq_equiv};
ghost use Rattle.std.specs.Cmp.{partial_equiv_from_equiv};

use bytes::Bytes as SharedBytes;
use std::alloc::{AllocError, Global};
use std::marker::Model;
use std::mem;

/// Bytes in memory of their own, or in a part of memory that others hold too. Contracts see the list of them.
#[derive(Debug, Drop)]
pub struct Bytes {
    held: Held,
}

/// What bytes are held in.
#[derive(Debug, Drop)]
enum Held {
    /// In memory of their own.
    Own(Vec<u8>),
    /// In a part of memory that others hold too; a copy of them would be made on this allocator.
    Part { bytes: SharedBytes, alloc: Global },
}

impl Model for Bytes {
    ghost use Rattle.std.specs.Prelude.{ℕ, List};
    ghost use Rattle.http_pieces.specs.Bytes.{held_bytes};

    ghost Value = { List ℕ };

    ghost view = { λ b. held_bytes b.held };
}

impl Bytes {
    /// No bytes, on this allocator.
    pub fn new(alloc: Global) -> Bytes
        ensures { result ≡ [] }
    {
        Bytes::from_vec(Vec::new(alloc))
    }

    /// Takes the vector, with no copy.
    pub fn from_vec(bytes: Vec<u8>) -> Bytes
        ensures { result ≡ bytes.items }
    {
        Bytes {
            held: Held::Own(bytes),
        }
    }

    /// Copies the slice.
    pub fn from_slice(alloc: Global, bytes: &[u8]) -> Result<Bytes, AllocError>
        ensures { IfOk result (λ b. b ≡ bytes.now) }
    {
        let copy = Vec::from_slice(alloc, bytes)?;
        Ok(Bytes::from_vec(copy))
    }

    /// The bytes.
    pub fn as_slice(&self) -> &[u8]
        ensures { result.now ≡ self.now }
    {
        match &self.held {
            Held::Own(bytes) => bytes.as_slice(),
            Held::Part { bytes, alloc: _ } => bytes.as_slice(),
        }
    }

    /// How many bytes there are.
    pub fn len(&self) -> usize
        ensures { result ≡ length self.now }
    {
        self.as_slice().len()
    }

    /// Whether there are none.
    pub fn is_empty(&self) -> bool
        ensures { IsTrue result ↔ (self.now ≡ []) }
    {
        self.as_slice().is_empty()
    }

    /// Adds a copy of `more` at the end.
    pub fn extend_from_slice(&mut self, more: &[u8]) -> Result<(), AllocError>
        ensures ok { OnOk result (self.new ≡ self.old ++ more.now) }
        ensures err { OnErr result (self.new ≡ self.old) }
    {
        match &mut self.held {
            Held::Own(bytes) => bytes.extend_from_slice(more),
            Held::Part { bytes, alloc } => {
                let mut copy = Vec::from_slice(*alloc, bytes.as_slice())?;
                copy.extend_from_slice(more)?;
                self.held = Held::Own(copy);
                Ok(())
            }
        }
    }

    /// Lets others hold a part of these bytes with no copy. Where memory is refused, they stay as they are.
    pub fn share(&mut self)
        ensures { self.new ≡ self.old }
    {
        let Held::Own(bytes) = &mut self.held else {
            return;
        };
        let alloc = *bytes.allocator();
        let own = mem::replace(bytes, Vec::new(alloc));
        self.held = match SharedBytes::from_vec(own) {
            Ok(bytes) => Held::Part { bytes, alloc },
            Err(refused) => Held::Own(refused.value),
        };
    }

    /// Holds these bytes in `whole` from there on, and gives their own memory back. Where `whole` is not shared, or
    /// has other bytes there, or memory is refused, they stay as they are.
    pub fn hold_in(&mut self, whole: &Bytes, start: usize)
        ensures { self.new ≡ self.old }
    {
        let Some(part) = whole.part(start, self.len()) else {
            return;
        };
        if part == *self {
            *self = part;
        }
    }

    /// So many bytes from there on, held where these are; None where they are not shared or too few, or memory is
    /// refused.
    fn part(&self, start: usize, count: usize) -> Option<Bytes> {
        let Held::Part { bytes, alloc } = &self.held else {
            return None;
        };
        let end = start.checked_add(count)?;
        if end > bytes.len() {
            return None;
        }
        let bytes = bytes.slice(start..end).ok()?;
        Some(Bytes {
            held: Held::Part {
                bytes,
                alloc: *alloc,
            },
        })
    }
}

impl Clone for Bytes {
    ghost is_clone = { λ b c. c ≡ b };

    fn clone(&self) -> Result<Self, AllocError> {
        let held = match &self.held {
            Held::Own(bytes) => Held::Own(bytes.clone()?),
            Held::Part { bytes, alloc } => Held::Part {
                bytes: bytes.clone()?,
                alloc: *alloc,
            },
        };
        Ok(Bytes { held })
    }
}

impl PartialEq for Bytes {
    ghost eq = { pointwise nat_eq };

    ghost laws = { partial_equiv_from_equiv nat_list_eq_equiv };

    fn eq(&self, other: &Self) -> bool {
        self.as_slice() == other.as_slice()
    }
}

impl Eq for Bytes {
    ghost laws = { nat_list_eq_equiv };
}
