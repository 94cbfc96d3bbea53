//! Whether bytes are JSON, found in one pass over their tokens. No value is built.
ghost use Rattle.std.specs.Prelude.{◌≡◌, ◌==◌, ◌<◌, length, slice_index, IfOk, IsTrue, MatchResult, OnOk, Some, None, false, is_some, true};
ghost use Rattle.serde_json.specs.Read.{number_of, number_from, float_of};
ghost use Rattle.json_values.specs.Json.{json_of};
ghost use Rattle.json_values.specs.Rest.{after_value, after_items, after_members};

use fast_float::Numeral;
use json::{Invalid, Reader, Scratch, Token};
use simdutf8::basic::from_utf8;
use std::alloc::{AllocError, Global};

/// How deep arrays and objects may nest: what `serde_json` allows.
const MAX_DEPTH: usize = 127;

/// Whether the bytes are JSON: whether `json_value` reads a value of them.
pub fn is_json(alloc: Global, bytes: &[u8]) -> Result<bool, AllocError>
    ensures { IfOk result (λ yes. yes ≡ is_some (json_of bytes.now)) }
{
    // made apart from its use: in one function its 16 KB were cleared twice
    let mut scratch = Scratch::new(alloc);
    is_json_over(bytes, &mut scratch)
}

/// The same, over this memory.
#[inline(never)]
fn is_json_over(bytes: &[u8], scratch: &mut Scratch) -> Result<bool, AllocError>
    ensures { IfOk result (λ yes. yes ≡ is_some (json_of bytes.now)) }
{
    let Ok(text) = from_utf8(bytes) else {
        return Ok(false);
    };
    let mut reader = Reader::new(text, scratch)?;
    if pass_value(&mut reader, MAX_DEPTH).is_err() {
        return Ok(false);
    }
    Ok(reader.next().is_none())
}

/// Passes over a value. In it arrays and objects nest `depth` deep at most, and each number is in range.
#[cycle(pass)]
#[inline(always)]
fn pass_value(reader: &mut Reader<'_>, depth: usize) -> Result<(), Invalid>
    ensures value { MatchResult result (λ _. after_value depth reader.old ≡ Some reader.new)
        (λ _. after_value depth reader.old ≡ None) }
    ensures shorter { OnOk result (length reader.new < length reader.old) }
{
    let token = reader.next().ok_or(Invalid)?;
    match token {
        Token::String(_) | Token::Bool(_) | Token::Null => Ok(()),
        Token::Number(text) => if is_in_range(text.as_bytes()) {
            Ok(())
        } else {
            Err(Invalid)
        },
        Token::EndObject | Token::EndArray | Token::Key(_) | Token::Bad => Err(Invalid),
        Token::BeginArray => {
            if depth == 0 {
                return Err(Invalid);
            }
            pass_items(reader, depth - 1)
        }
        Token::BeginObject => {
            if depth == 0 {
                return Err(Invalid);
            }
            pass_members(reader, depth - 1)
        }
    }
}

/// Passes over the items of an array, and the bracket that closes it.
#[cycle(pass)]
#[inline(never)]
fn pass_items(reader: &mut Reader<'_>, depth: usize) -> Result<(), Invalid>
    ensures value { MatchResult result (λ _. after_items depth reader.old ≡ Some reader.new)
        (λ _. after_items depth reader.old ≡ None) }
    ensures shorter { OnOk result (length reader.new < length reader.old) }
{
    'items: while !reader.take_end_array() {
        pass_value(reader, depth)?;
    }
    Ok(())
}

/// Passes over the members of an object, and the brace that closes it.
#[cycle(pass)]
#[inline(never)]
fn pass_members(reader: &mut Reader<'_>, depth: usize) -> Result<(), Invalid>
    ensures value { MatchResult result (λ _. after_members depth reader.old ≡ Some reader.new)
        (λ _. after_members depth reader.old ≡ None) }
    ensures shorter { OnOk result (length reader.new < length reader.old) }
{
    'members: while let Some(_) = reader.next_key()? {
        pass_value(reader, depth)?;
    }
    Ok(())
}

/// Whether the number that a token writes is an integer of 64 bits or a finite float.
#[inline(never)]
fn is_in_range(text: &[u8]) -> bool
    ensures { result ≡ is_some (number_of text.now) }
{
    if has_minus(text) {
        is_negative_in_range(&Numeral::scan(&text[1..]))
    } else {
        is_positive_in_range(&Numeral::scan(text))
    }
}

#[inline(always)]
fn is_positive_in_range(numeral: &Numeral<'_>) -> bool
    ensures { result ≡ is_some (number_from false numeral.now) }
{
    numeral.to_u64().is_some() || is_finite(false, numeral)
}

#[inline(always)]
fn is_negative_in_range(numeral: &Numeral<'_>) -> bool
    ensures { result ≡ is_some (number_from true numeral.now) }
{
    numeral.to_i64(true).is_some_and(|n| n < 0) || is_finite(true, numeral)
}

#[inline(always)]
fn is_finite(negative: bool, numeral: &Numeral<'_>) -> bool
    ensures { result ≡ is_some (float_of negative numeral.now) }
{
    numeral.to_float::<f64>(negative).is_finite()
}

#[inline(always)]
fn has_minus(text: &[u8]) -> bool
    ensures value { result ≡ (slice_index text.now 0 == 45) }
    ensures len { IsTrue result → 0 < length text.now }
{
    !text.is_empty() && text[0] == b'-'
}
