ghost use Rattle.std.specs.Prelude.{◌≡◌, ◌≤◌, ℕ, List, [], length, drop, IsTrue, ◌↔◌};

use http_pieces::Bytes;
use std::marker::Model;

/// What waits to be written. Contracts see these bytes.
#[derive(Drop)]
pub struct Outbox {
    bytes: Bytes,
    at: usize,
}

impl Model for Outbox {
    ghost Value = { List ℕ };

    ghost view = { λ o. drop o.at o.bytes };

    ghost invariant = { λ o. o.at ≤ length o.bytes };
}

impl Outbox {
    /// All these bytes wait. They are not copied.
    pub fn of(bytes: Bytes) -> Outbox
        ensures { result ≡ bytes }
    {
        Outbox { bytes, at: 0 }
    }

    /// Whether nothing waits.
    pub fn is_empty(&self) -> bool
        ensures { IsTrue result ↔ (self.now ≡ []) }
    {
        self.waiting().is_empty()
    }

    /// The bytes that wait.
    pub fn waiting(&self) -> &[u8]
        ensures { result.now ≡ self.now }
    {
        &self.bytes.as_slice()[self.at..]
    }

    /// So many of the first bytes were written.
    pub fn sent(&mut self, count: usize)
        requires { count ≤ length self.old }
        ensures { self.new ≡ drop count self.old }
    {
        let left = self.waiting().len() - count;
        self.at = self.bytes.len() - left;
    }
}
