ghost use Rattle.std.specs.Char.{is_ascii_hexdigit};
ghost use Rattle.std.specs.Prelude.{IfNone, take, ◌-◌, ◌++◌, if◌then◌else◌, nat_lt, not, ◌+◌, ◌≡◌, ◌<◌, ◌≤◌, ◌==◌, length, position, IfSome, MatchOption, None, Some};
ghost use Rattle.http_pieces.specs.Chunks.{after_size, begins_with_semicolon, digits_in, dropping, hexadecimal, is_extension, is_field, line_end, line_text, most_of, next_by, next_of, next_trailer, part_end, place_at, size_in, IsOpen};

use crate::blanks::trim_blanks;
use httparse::{is_header_value, is_token, parse_hex_digit};

/// A chunk's size has at most so many digits.
const MAX_DIGITS: usize = 16;

/// A line has at most so many bytes beside those that are dropped: its digits and CR LF.
const MOST_LINE: usize = MAX_DIGITS + 2;

const LINE_END: &[u8] = b"\r\n";

/// Why a body in chunks is refused.
#[derive(Clone, Copy, PartialEq, Eq, Debug)]
pub(crate) enum ChunkFault {
    /// Its text is not what RFC 9112, section 7.1 says, or more of it is dropped than the limit.
    Malformed,
    /// Its sizes come to more than a body may have.
    TooLarge,
}

/// A part of a body in chunks. Each ends in CR LF.
#[derive(Clone, Copy, Debug)]
pub(crate) enum Part {
    /// The line before a chunk's data.
    Size,
    /// So many bytes of data.
    Data(u32),
    /// A line of the trailers, which follow the last chunk.
    Trailer,
}

/// A place between two parts of a body.
#[derive(Clone, Copy, Debug)]
pub(crate) struct Place {
    /// The part that comes next.
    pub(crate) part: Part,
    /// How many bytes of data the sizes to come may add.
    pub(crate) room: u32,
    /// How many bytes of extensions and trailers may come yet.
    pub(crate) spare: u16,
}

/// What a whole part leads to.
#[derive(Clone, Copy, Debug)]
pub(crate) enum Next {
    Fault(ChunkFault),
    /// The body ends with the part.
    End,
    /// The place behind the part, and how many of its first bytes are data.
    Goes(Place, u32),
}

/// What bytes of a body came to.
#[derive(Clone, Copy, Debug)]
pub(crate) enum Decoded {
    /// The body is not whole.
    More,
    Whole,
    Fault(ChunkFault),
}

/// What a whole part leads to, with its CR LF.
pub(crate) fn next_of(place: Place, bytes: &[u8]) -> Next
    ensures { result ≡ next_of place bytes.now }
{
    match line_text(bytes) {
        Some(text) => next_by(place, text),
        None => Next::Fault(ChunkFault::Malformed),
    }
}

/// The text in front of a last CR LF.
fn line_text(line: &[u8]) -> Option<&[u8]>
    ensures { MatchOption result (line_text line.now ≡ None) (λ text. line_text line.now ≡ Some text.now) }
{
    let size = line.len().saturating_sub(2);
    if &line[size..] == LINE_END {
        Some(&line[..size])
    } else {
        None
    }
}

fn next_by(place: Place, text: &[u8]) -> Next
    ensures { result ≡ next_by place.part place text.now }
{
    match place.part {
        Part::Size => match size_in(text) {
            Some((size, extension)) => after_size(place, size, extension),
            None => Next::Fault(ChunkFault::Malformed),
        },
        Part::Data(size) => Next::Goes(place_at(Part::Size, place.room, place.spare), size),
        Part::Trailer => next_trailer(place, text),
    }
}

/// What a size line leads to, whose extension has so many bytes.
fn after_size(place: Place, size: u64, extension: usize) -> Next
    ensures { result ≡ dropping place extension (after_size place size) }
{
    let Some(spare) = spare_after(place, extension) else {
        return Next::Fault(ChunkFault::Malformed);
    };
    if size == 0 {
        return Next::Goes(place_at(Part::Trailer, place.room, spare), 0);
    }
    if u64::from(place.room) < size {
        return Next::Fault(ChunkFault::TooLarge);
    }
    let size = size as u32;
    Next::Goes(place_at(Part::Data(size), place.room - size, spare), 0)
}

/// What a line of the trailers leads to. The empty one is the last.
fn next_trailer(place: Place, text: &[u8]) -> Next
    ensures { result ≡ next_trailer place text.now }
{
    if text.is_empty() {
        return Next::End;
    }
    if !is_field(text) {
        return Next::Fault(ChunkFault::Malformed);
    }
    match spare_after(place, text.len()) {
        Some(spare) => Next::Goes(place_at(Part::Trailer, place.room, spare), 0),
        None => Next::Fault(ChunkFault::Malformed),
    }
}

/// How many bytes may be dropped yet, once so many more are.
fn spare_after(place: Place, count: usize) -> Option<u16>
    ensures { result ≡ (if nat_lt place.spare count then None else Some (place.spare - count)) }
{
    if usize::from(place.spare) < count {
        None
    } else {
        Some(place.spare - count as u16)
    }
}

fn place_at(part: Part, room: u32, spare: u16) -> Place
    ensures { result ≡ place_at part room spare }
{
    Place { part, room, spare }
}

/// The size of a chunk, and how many bytes its extension has.
fn size_in(text: &[u8]) -> Option<(u64, usize)>
    ensures { result ≡ size_in text.now }
{
    let digits = digits_in(text);
    let size = read_hexadecimal(&text[..digits])?;
    let extension = &text[digits..];
    if is_extension(extension) {
        Some((size, extension.len()))
    } else {
        None
    }
}

/// How many hexadecimal digits lead the text.
fn digits_in(text: &[u8]) -> usize
    ensures count { result ≡ digits_in text.now }
    ensures within { result ≤ length text.now }
{
    other_in(text).unwrap_or(text.len())
}

fn other_in(text: &[u8]) -> Option<usize>
    ensures place { result ≡ position (λ b. not (is_ascii_hexdigit b)) text.now }
    ensures within { IfSome result (λ n. n < length text.now) }
{
    text.iter().position(|byte| !byte.is_ascii_hexdigit())
}

/// The number that a text of 1 to 16 hexadecimal digits writes; None for every other text.
fn read_hexadecimal(text: &[u8]) -> Option<u64>
    ensures { result ≡ hexadecimal text.now }
{
    if text.is_empty() || text.len() > MAX_DIGITS {
        return None;
    }
    let mut number = 0u64;
    for byte in text {
        let digit = parse_hex_digit(*byte)?;
        number = number * 16 + digit;
    }
    Some(number)
}

/// Whether the text behind a chunk's size is an extension, or empty. What one says is not read.
fn is_extension(text: &[u8]) -> bool
    ensures { result ≡ is_extension text.now }
{
    text.is_empty() || begins_with_semicolon(trim_blanks(text)) && is_header_value(text)
}

fn begins_with_semicolon(text: &[u8]) -> bool
    ensures { result ≡ begins_with_semicolon text.now }
{
    matches!(text, [b';', ..])
}

/// Whether the text is a field: a name, a colon and a value.
#[tactic(auto, unfolding(crate::specs::Chunks::is_field))]
fn is_field(text: &[u8]) -> bool
    ensures { result ≡ is_field text.now }
{
    match colon_in(text) {
        Some(colon) => is_token(&text[..colon]) && is_header_value(&text[colon + 1..]),
        None => false,
    }
}

fn colon_in(text: &[u8]) -> Option<usize>
    ensures place { result ≡ position (λ b. b == 58) text.now }
    ensures within { IfSome result (λ n. n < length text.now) }
{
    text.iter().position(|b| *b == b':')
}

/// Where the first line of the text ends.
pub(crate) fn line_end(text: &[u8]) -> Option<usize>
    ensures end { result ≡ line_end text.now }
    ensures within { IfSome result (λ n. (0 < n) × (n ≤ length text.now)) }
{
    let mut end = 0;
    for byte in text {
        end += 1;
        if *byte == b'\n' {
            return Some(end);
        }
    }
    None
}

/// Where the part at the place ends in the bytes, behind those of it that came before.
pub(crate) fn part_end(place: Place, before: &[u8], bytes: &[u8]) -> Option<usize>
    requires { IsOpen place before.now }
    ensures none { IfNone result (part_end place.part place.spare (before.now ++ bytes.now) ≡ None) }
    ensures ends { IfSome result (λ k. part_end place.part place.spare (before.now ++ take k bytes.now)
        ≡ Some (length before.now + k)) }
    ensures within { IfSome result (λ k. (0 < k) × (k ≤ length bytes.now)) }
{
    match place.part {
        Part::Data(size) => data_end(size as usize + 2 - before.len(), bytes),
        Part::Size => line_in(place.spare, before, bytes),
        Part::Trailer => line_in(place.spare, before, bytes),
    }
}

/// Where a line ends in the bytes, of which some came before, and of which so many may be dropped.
fn line_in(spare: u16, before: &[u8], bytes: &[u8]) -> Option<usize>
    requires none { line_end (take (spare + 18) before.now) ≡ None }
    requires short { length before.now < spare + 18 }
    ensures none { IfNone result (line_end (take (spare + 18) (before.now ++ bytes.now)) ≡ None) }
    ensures ends { IfSome result (λ k. line_end (take (spare + 18) (before.now ++ take k bytes.now))
        ≡ Some (length before.now + k)) }
    ensures within { IfSome result (λ k. (0 < k) × (k ≤ length bytes.now)) }
{
    let most = usize::from(spare) + MOST_LINE - before.len();
    line_end(&bytes[..most.min(bytes.len())])
}

/// So many bytes, if there are as many.
fn data_end(missing: usize, bytes: &[u8]) -> Option<usize>
    ensures none { IfNone result (length bytes.now < missing) }
    ensures some { IfSome result (λ k. (k ≡ missing) × (missing ≤ length bytes.now)) }
{
    if bytes.len() < missing {
        None
    } else {
        Some(missing)
    }
}

/// Whether a part that has not ended in these bytes can't end any more.
pub(crate) fn is_too_long(place: Place, bytes: &[u8]) -> bool
    ensures { result ≡ not (nat_lt (length bytes.now) (most_of place.part place.spare)) }
{
    match place.part {
        Part::Data(size) => size as usize + 2 <= bytes.len(),
        Part::Size | Part::Trailer => usize::from(place.spare) + MOST_LINE <= bytes.len(),
    }
}
