ghost use Rattle.std.specs.Prelude.{◌≡◌, ◌∷◌, [], List, ◌+◌, ◌^◌, min};
ghost use Rattle.gateway_model.specs.declared.seen.Seen.{Seen as Sights};
ghost use Rattle.gateway_theory.specs.Tally.{most_counted, tally_of};

use gateway_model::Seen;

/// Results of one kind that are counted at most.
const MOST_COUNTED: u64 = 1 << 62;

/// How many results of branches were seen in which way since the gateway was made. Each number stands still at 2^62.
#[derive(Clone, Copy, PartialEq, Eq, Debug)]
pub struct Tally {
    pub counted: u64,
    pub late: u64,
    pub unknown: u64,
}

impl Tally {
    /// No result has come.
    pub fn new() -> Tally
        ensures { result ≡ tally_of [] }
    {
        Tally {
            counted: 0,
            late: 0,
            unknown: 0,
        }
    }

    /// A result more was seen so.
    pub fn add(&mut self, seen: Seen)
        ensures { (before : List Sights) → self.old ≡ tally_of before → self.new ≡ tally_of (seen ∷ before) }
    {
        match seen {
            Seen::Counted => self.counted = one_more(self.counted),
            Seen::Late => self.late = one_more(self.late),
            Seen::Unknown => self.unknown = one_more(self.unknown),
        }
    }
}

fn one_more(number: u64) -> u64
    ensures { result ≡ min (number + 1) most_counted }
{
    number.saturating_add(1).min(MOST_COUNTED)
}
