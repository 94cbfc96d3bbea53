ghost use Rattle.std.specs.Prelude.{◌≡◌};

use std::marker::Model;

/// A registered hook, by its number. Hooks count from 0 over the registrations that succeeded.
#[derive(Clone, Copy, PartialEq, Eq, Debug)]
pub struct AfterId {
    number: u64,
}

impl Model for AfterId {
    ghost use Rattle.std.specs.Prelude.{ℕ};

    ghost Value = { ℕ };

    ghost view = { λ id. id.number };

    ghost inverse = { λ n. record { number = n } };
}

impl AfterId {
    pub(crate) fn of(number: u64) -> AfterId
        ensures { result ≡ number }
    {
        AfterId { number }
    }
}
