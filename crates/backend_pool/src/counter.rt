ghost use Rattle.std.specs.Prelude.{◌≡◌, ◌+◌, ◌<◌, ◌≤◌, ℕ, IsTrue, ◌↔◌};
ghost use Rattle.backend_pool.specs.Book.{most_total};

use std::marker::Model;
use std::sync::ledger::{self, Blank, Ledger, Share};
use thiserror::Error;

/// A total would pass 2^62. Nothing was done.
#[derive(Clone, Copy, PartialEq, Eq, Debug, Error)]
#[error("a total would pass 2^62")]
pub struct LedgerFull;

/// No total is greater.
const MOST: u64 = 1 << 62;

/// A total beside its ledger: the sum of what the holders of shares have added.
#[derive(Drop)]
pub struct Counter<L: Ledger> {
    total: u64,
    ledger: ledger::Book<L>,
}

impl<L: Ledger> Model for Counter<L> {
    ghost Value = { ℕ };

    ghost view = { λ c. c.total };

    ghost invariant = { λ c. (c.total ≡ c.ledger.total) × (c.total ≤ most_total) };
}

impl<L: Ledger> Counter<L> {
    /// A total of 0, over a new ledger.
    pub fn new(ledger: ledger::Book<L>) -> Counter<L>
        requires { ledger.total ≡ 0 }
        ensures { result ≡ 0 }
    {
        Counter { total: 0, ledger }
    }

    /// The total.
    pub fn total(&self) -> u64
        ensures is { result ≡ self.now }
        ensures bound { result ≤ most_total }
    {
        self.total
    }

    /// Whether so much more can be added.
    pub fn has_room(&self, amount: u64) -> bool
        ensures { IsTrue result ↔ (self.now + amount ≤ most_total) }
    {
        amount <= MOST - self.total
    }

    /// Adds to the total and to the holder's share.
    pub fn add(&mut self, mine: &mut Share<L>, amount: u64)
        requires parts { 0 < mine.old.parts }
        requires room { self.old + amount ≤ most_total }
        ensures total { self.new ≡ self.old + amount }
        ensures amount { mine.new.amount ≡ mine.old.amount + amount }
        ensures parts { mine.new.parts ≡ mine.old.parts }
    {
        self.ledger.add(mine, amount);
        self.total += amount;
    }

    /// The total. A share has no more than that, and one with all parts has all of it.
    pub fn audit(&mut self, mine: &mut Share<L>) -> u64
        ensures total { result ≡ self.old }
        ensures bound { mine.old.amount ≤ result }
        ensures whole { mine.old.parts ≡ L.parts → mine.old.amount ≡ result }
        ensures unchanged { self.new ≡ self.old }
        ensures amount { mine.new.amount ≡ mine.old.amount }
        ensures parts { mine.new.parts ≡ mine.old.parts }
    {
        self.ledger.audit(mine);
        self.total
    }
}

/// New ledgers of bytes, jobs and results, which no type stands for yet.
#[derive(Drop)]
pub struct Blanks {
    pub bytes: Blank,
    pub jobs: Blank,
    pub results: Blank,
}

/// Shares of the ledgers of bytes, jobs and results.
#[derive(Drop)]
pub struct Shares<L: Ledger, J: Ledger, K: Ledger> {
    pub bytes: Share<L>,
    pub jobs: Share<J>,
    pub results: Share<K>,
}

/// A worker's shares, of the ledgers of jobs and results.
#[derive(Drop)]
pub struct WorkerShares<J: Ledger, K: Ledger> {
    pub jobs: Share<J>,
    pub results: Share<K>,
}

/// The bytes, jobs and results of a book.
#[derive(Clone, Copy, PartialEq, Eq, Debug)]
pub struct Totals {
    pub bytes: u64,
    pub jobs: u64,
    pub results: u64,
}
