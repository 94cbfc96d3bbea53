ghost use Rattle.std.specs.Prelude.{◌≡◌, ℕ, List, [], ◌∷◌, min};
ghost use Rattle.http_pieces.specs.Fields.{IsFieldOf};
ghost use Rattle.timeout_header.specs.Timeout.{timeout_of, timeout_text};

use crate::digits::Digits;
use crate::error::BadTimeout;
use http_pieces::{Field, MAX_DECIMAL, read_decimal};

/// What a request's `Connect-Timeout-Ms` field says, in milliseconds: None without the field, else
/// the number of its one value of 1 to 10 digits. Every other field is refused.
pub fn read(field: Field<'_>) -> Result<Option<u64>, BadTimeout>
    ensures { (values : List (List ℕ)) → IsFieldOf values field.entry → result ≡ timeout_of values }
{
    match field {
        Field::None => Ok(None),
        Field::One(value) => read_decimal(value).map(Some).ok_or(BadTimeout),
        Field::Many => Err(BadTimeout),
    }
}

/// The value that the field has for a timeout in milliseconds. A timeout above 9,999,999,999, the
/// most that ten digits say, is written as that.
pub fn write(timeout: u64) -> Digits
    ensures digits { result ≡ timeout_text timeout }
    ensures reads_back { timeout_of (result ∷ []) ≡ Ok (Some (min timeout MAX_DECIMAL)) }
{
    Digits::of(timeout.min(MAX_DECIMAL))
}
