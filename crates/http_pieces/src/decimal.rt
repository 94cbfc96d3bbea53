ghost use Rattle.std.specs.Prelude.{◌≡◌};
ghost use Rattle.http_pieces.specs.Fields.{decimal};

/// The number that a text of 1 to 10 decimal digits writes; None for every other text. Zeros may lead.
pub fn read_decimal(text: &[u8]) -> Option<u64>
    ensures { result ≡ decimal text.now }
{
    if text.is_empty() || text.len() > 10 {
        return None;
    }
    let mut number = 0u64;
    for digit in text {
        if !digit.is_ascii_digit() {
            return None;
        }
        number = number * 10 + u64::from(*digit - b'0');
    }
    Some(number)
}
