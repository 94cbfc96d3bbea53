ghost use Rattle.std.specs.Prelude.{◌≡◌, ◌<◌, ◌==◌, ◌≤◌, ◌∷◌, [], map, length, position, All, IfSome, MatchOption};
ghost use Rattle.httparse.specs.Spans.{IsHeaderWithin, header_bytes};
ghost use Rattle.http_pieces.specs.Fields.{values_of, IsFieldOf, same_without_case, comma_parts, is_option, has_option, lists_option};

use crate::blanks::trim_blanks;
use crate::field::Field;
use httparse::spans::HeaderSpan;

/// What the head says under a name.
pub(crate) fn find_field<'a>(bytes: &'a [u8], headers: &[HeaderSpan], name: &[u8]) -> Field<'a>
    requires { All (IsHeaderWithin (length bytes.now)) headers.now }
    ensures { IsFieldOf (values_of name.now (map (header_bytes bytes.now) headers.now)) result }
{
    let mut found = Field::None;
    for header in headers {
        if is_named(bytes, header, name) {
            found = match found {
                Field::None => Field::One(header.value.of(bytes)),
                _ => Field::Many,
            };
        }
    }
    found
}

/// Whether the header has this name.
#[tactic(auto, using(crate::proofs::FieldLemmas::same_is))]
fn is_named(bytes: &[u8], header: &HeaderSpan, name: &[u8]) -> bool
    requires { IsHeaderWithin (length bytes.now) header.now }
    ensures { result ≡ same_without_case (header_bytes bytes.now header.now).0 name.now }
{
    header.name.of(bytes).eq_ignore_ascii_case(name)
}

/// Whether some `Connection` field has the option of that name.
pub(crate) fn lists_option(bytes: &[u8], headers: &[HeaderSpan], name: &[u8]) -> bool
    requires { All (IsHeaderWithin (length bytes.now)) headers.now }
    ensures { result ≡ lists_option name.now (map (header_bytes bytes.now) headers.now) }
{
    for header in headers {
        if is_named(bytes, header, b"connection") && has_option(header.value.of(bytes), name) {
            return true;
        }
    }
    false
}

/// Whether one of the comma-separated options has that name.
#[tactic(auto, using(crate::proofs::FieldLemmas::has_option_last, crate::proofs::FieldLemmas::has_option_step))]
fn has_option(value: &[u8], name: &[u8]) -> bool
    ensures { result ≡ has_option name.now value.now }
{
    let mut rest = value;
    'options: loop {
        let (option, after) = next_option(rest);
        if is_option(option, name) {
            return true;
        }
        match after {
            Some(after) => rest = after,
            None => return false,
        }
    }
}

/// The first of the comma-separated options, and what follows its comma, if it has one.
#[tactic(auto, using(crate::proofs::FieldLemmas::cut_at, crate::proofs::FieldLemmas::cut_nowhere))]
fn next_option(options: &[u8]) -> (&[u8], Option<&[u8]>)
    ensures shorter { IfSome result.1 (λ after. length after.now < length options.now) }
    ensures parts { MatchOption result.1 (comma_parts options.now ≡ result.0.now ∷ [])
        (λ after. comma_parts options.now ≡ result.0.now ∷ comma_parts after.now) }
{
    match comma_in(options) {
        Some(comma) => (&options[..comma], Some(&options[comma + 1..])),
        None => (options, None),
    }
}

fn comma_in(text: &[u8]) -> Option<usize>
    ensures { result ≡ position (λ b. b == 44) text.now }
{
    text.iter().position(|b| *b == b',')
}

#[tactic(auto, using(crate::proofs::FieldLemmas::same_is))]
fn is_option(option: &[u8], name: &[u8]) -> bool
    ensures { result ≡ is_option name.now option.now }
{
    trim_blanks(option).eq_ignore_ascii_case(name)
}
