ghost use Rattle.std.specs.Prelude.{◌≡◌};

use std::marker::Model;

/// A connection, by its number. Connections count from 0 over the openings that succeeded.
#[derive(Clone, Copy, PartialEq, Eq, Debug)]
pub struct ConnId {
    number: u64,
}

impl Model for ConnId {
    ghost use Rattle.std.specs.Prelude.{ℕ};

    ghost Value = { ℕ };

    ghost view = { λ c. c.number };

    ghost inverse = { λ n. record { number = n } };
}

impl ConnId {
    /// The connection of this number.
    pub fn of(number: u64) -> ConnId
        ensures { result ≡ number }
    {
        ConnId { number }
    }

    /// The connection's number.
    pub fn number(self) -> u64
        ensures { result ≡ self }
    {
        self.number
    }
}

/// A call: its connection, and the number of its request on it, from 0.
#[derive(Clone, Copy, PartialEq, Eq, Debug)]
pub struct CallId {
    pub conn: ConnId,
    pub request: u64,
}
