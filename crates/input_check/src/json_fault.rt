ghost use Rattle.std.specs.Prelude.{◌≤◌, length};

use crate::complaint::Complaint;
use crate::finding::{Finding, Place};
use crate::nesting::pass_tokens;
use serde_json::{Error, Value};
use std::alloc::{AllocError, Global};

/// Why a text is no JSON, and where, by what the reader of JSON says of it.
pub(crate) fn json_fault(
    alloc: Global,
    text: &[u8],
    error: &Error,
) -> Result<Finding<'static>, AllocError> {
    if text.is_empty() {
        return Ok(Finding::at(Place::File, Complaint::Empty));
    }
    if begins_as_utf16(text) {
        return Ok(Finding::at(Place::File, Complaint::Utf16));
    }
    if text.starts_with(b"\xef\xbb\xbf") {
        return Ok(Finding::at(Place::Text(1, 1), Complaint::ByteOrderMark));
    }
    // where a line has no byte yet, the reader says column 0
    let stopped = Place::Text(error.line(), error.column().max(1));
    if simdutf8::basic::from_utf8(text).is_err() {
        return Ok(Finding::at(stopped, Complaint::NotUtf8));
    }
    if error.is_eof() {
        return Ok(Finding::at(stopped, Complaint::CutOff));
    }
    let (at, complaint) = slip(alloc, text, offset_of(text, error.line(), error.column()))?;
    Ok(Finding::at(place_of(text, at), complaint))
}

/// The token at which a text is no JSON, and what may have been meant, where the reader stopped there.
fn slip(alloc: Global, text: &[u8], stop: usize) -> Result<(usize, Complaint), AllocError> {
    let passed = pass_tokens(text, stop);
    // the reader has taken each word before, but for a number behind which it stopped
    if let Some(at) = passed.word {
        if !is_value(alloc, word_of(from(text, at)))? {
            return Ok((at, Complaint::NumberTooLarge));
        }
    }
    match passed.stray {
        Some((at, complaint)) => Ok((at, known_slip(from(text, at)).unwrap_or(complaint))),
        None => Ok((stop, no_token(text, stop))),
    }
}

/// The text from there on.
fn from(text: &[u8], at: usize) -> &[u8] {
    text.get(at..).unwrap_or(&[])
}

/// Whether the reader takes a word by itself.
fn is_value(alloc: Global, word: &[u8]) -> Result<bool, AllocError> {
    match Value::from_slice(alloc, word) {
        Ok(_) => Ok(true),
        Err(error) if error.is_memory() => Err(AllocError),
        Err(_) => Ok(false),
    }
}

/// The word at the front of a text.
fn word_of(text: &[u8]) -> &[u8] {
    match text.iter().position(|byte| ends_word(*byte)) {
        Some(end) => text.get(..end).unwrap_or(&[]),
        None => text,
    }
}

fn ends_word(byte: u8) -> bool {
    byte.is_ascii_whitespace() || b"[]{},:\"".contains(&byte)
}

/// What is meant by what JSON has nowhere.
fn known_slip(rest: &[u8]) -> Option<Complaint> {
    if rest.starts_with(b"//") || rest.starts_with(b"/*") || rest.starts_with(b"#") {
        Some(Complaint::Comment)
    } else if rest.starts_with(b"'") {
        Some(Complaint::SingleQuotes)
    } else {
        None
    }
}

/// What may be meant by what stands there, where a token may stand, and is none.
fn no_token(text: &[u8], at: usize) -> Complaint {
    let rest = from(text, at);
    if let Some(complaint) = known_slip(rest) {
        complaint
    } else if text.iter().take(at).all(|byte| byte.is_ascii_whitespace()) && is_yaml(rest) {
        Complaint::Yaml
    } else if has_leading_zero(rest) {
        Complaint::LeadingZero
    } else if rest.starts_with(b"\"") {
        Complaint::NoText
    } else {
        Complaint::NoToken
    }
}

/// Whether a number has a 0 before its first digit.
fn has_leading_zero(rest: &[u8]) -> bool {
    match rest {
        [b'-', b'0', digit, ..] | [b'0', digit, ..] => digit.is_ascii_digit(),
        _ => false,
    }
}

/// Whether a text begins as YAML does: with `- `, with `---`, or with a word and a colon.
fn is_yaml(text: &[u8]) -> bool {
    let colon = text
        .iter()
        .position(|byte| !byte.is_ascii_lowercase() && *byte != b'_');
    text.starts_with(b"- ")
        || text.starts_with(b"---")
        || colon.is_some_and(|at| at > 0 && text.get(at) == Some(&b':'))
}

/// By its byte order mark, or by a NUL as its first or second byte.
fn begins_as_utf16(text: &[u8]) -> bool {
    text.starts_with(b"\xff\xfe")
        || text.starts_with(b"\xfe\xff")
        || text.iter().take(2).any(|byte| *byte == 0)
}

/// The offset of a line and a byte in it, both counted from 1; that of the text's end where it has no such place.
fn offset_of(text: &[u8], line: usize, column: usize) -> usize
    ensures { result ≤ length text.now }
{
    let mut start = 0;
    for _line in 1..line {
        match text[start..].iter().position(|byte| *byte == b'\n') {
            Some(end) => start += end + 1,
            None => return text.len(),
        }
    }
    if column == 0 || text.len() - start < column {
        return text.len();
    }
    start + column - 1
}

/// The line of a byte and its place in it, both counted from 1.
fn place_of(text: &[u8], at: usize) -> Place<'static> {
    let mut line = 1usize;
    let mut column = 1usize;
    for byte in text.iter().take(at) {
        if *byte == b'\n' {
            line = line.saturating_add(1);
            column = 1;
        } else {
            column = column.saturating_add(1);
        }
    }
    Place::Text(line, column)
}
