ghost use Rattle.std.specs.Prelude.{◌≡◌, ◌≤◌, decimal};

use http_pieces::MAX_DECIMAL;
use itoa::write_digits;
use std::marker::Model;

/// The value of a timeout field. Contracts see the list of its bytes.
#[derive(Debug, Drop)]
pub struct Digits {
    bytes: [u8; 10],
    start: usize,
}

impl Model for Digits {
    ghost use Rattle.std.specs.Prelude.{ℕ, List, ◌≤◌, drop};

    ghost Value = { List ℕ };

    ghost view = { λ d. drop d.start d.bytes };

    ghost invariant = { λ d. d.start ≤ 10 };
}

impl Digits {
    pub(crate) fn of(number: u64) -> Digits
        requires { number ≤ MAX_DECIMAL }
        ensures { result ≡ decimal number }
    {
        let mut bytes = [0; 10];
        let start = write_digits(number, &mut bytes, 10);
        Digits { bytes, start }
    }

    /// The bytes.
    pub fn as_bytes(&self) -> &[u8]
        ensures { result.now ≡ self.now }
    {
        &self.bytes[self.start..]
    }
}
