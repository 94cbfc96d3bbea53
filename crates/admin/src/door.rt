//! The addresses at which operators ask, and what a request must say there.
ghost use Rattle.std.specs.Prelude.{◌≡◌, ◌==◌, ℕ, List, position};
ghost use Rattle.std.specs.List.{before_first, list_all};
ghost use Rattle.http_pieces.specs.Fields.{IsFieldOf};
ghost use Rattle.connect_codec.specs.Headers.{is_absent_or_one};
ghost use Rattle.admin.specs.Door.{host_of, is_absent, is_bracketed, is_digit_or_point, is_form_type, is_named, is_no_form_type, is_number, may_drain, names};

use http_pieces::{Field, Request, same_without_case, trim_blanks};

/// Whom an address is for.
#[derive(Clone, Copy)]
pub enum Door<'a> {
    /// Operators: that of `--admin`, as it was given. Whoever reaches it may end the program, so a browser must not be
    /// led to it.
    Operators(&'a [u8]),
    /// Those who watch: that of `--ready`, which tells figures and readiness alone, whatever it is called.
    Watchers,
}

/// Whether a request names the door at which it came: `Host` is a number, `localhost` or the host that was given, or
/// absent (RFC 9110, section 7.2). Whatever name a page is loaded from, its requests name that.
pub(crate) fn is_named(request: &Request, door: Door<'_>) -> bool
    ensures { result ≡ is_named door.entry request.now.fields }
{
    match door {
        Door::Watchers => true,
        Door::Operators(given) => match request.field(b"host") {
            Field::None => true,
            Field::One(host) => names(given, host),
            Field::Many => false,
        },
    }
}

fn names(given: &[u8], host: &[u8]) -> bool
    ensures { result ≡ names given.now host.now }
{
    is_number(host)
        || same_without_case(host_of(host), b"localhost")
        || same_without_case(host_of(host), host_of(given))
}

/// What stands before the port.
fn host_of(address: &[u8]) -> &[u8]
    ensures { result.now ≡ host_of address.now }
{
    until(address, b':')
}

/// Whether the host is a number: an IPv6 address in brackets, or digits and points.
#[tactic(auto, unfolding(crate::specs::Door::is_number))]
fn is_number(host: &[u8]) -> bool
    ensures { result ≡ is_number host.now }
{
    is_bracketed(host) || !host_of(host).is_empty() && has_digits_alone(host_of(host))
}

fn is_bracketed(host: &[u8]) -> bool
    ensures { result ≡ is_bracketed host.now }
{
    match host.first() {
        Some(byte) => *byte == b'[',
        None => false,
    }
}

/// Whether a text has digits and points alone.
fn has_digits_alone(text: &[u8]) -> bool
    ensures { result ≡ list_all is_digit_or_point text.now }
{
    text.iter().all(|b| is_digit_or_point(*b))
}

fn is_digit_or_point(byte: u8) -> bool
    ensures { result ≡ is_digit_or_point byte }
{
    byte.is_ascii_digit() || byte == b'.'
}

/// Whether a request is none that a page of another origin, a form or a branch of a gateway sends: it has no `Origin`,
/// no `Connect-Protocol-Version` and no content type of a form.
pub(crate) fn may_drain(request: &Request) -> bool
    ensures { result ≡ may_drain request.now.fields }
{
    is_absent(request.field(b"origin"))
        && is_absent(request.field(b"connect-protocol-version"))
        && is_no_form(request.field(b"content-type"))
}

fn is_absent(field: Field<'_>) -> bool
    ensures { (values : List (List ℕ)) → IsFieldOf values field.entry → result ≡ is_absent values }
{
    matches!(field, Field::None)
}

fn is_no_form(content_type: Field<'_>) -> bool
    ensures { (values : List (List ℕ)) → IsFieldOf values content_type.entry
        → result ≡ is_absent_or_one is_no_form_type values }
{
    match content_type {
        Field::None => true,
        Field::One(value) => !is_form_type(value),
        Field::Many => false,
    }
}

/// Whether the media type is one of the three that a form can have (HTML, `enctype`).
#[tactic(auto, unfolding(crate::specs::Door::is_form_type))]
fn is_form_type(content_type: &[u8]) -> bool
    ensures { result ≡ is_form_type content_type.now }
{
    let media_type = trim_blanks(until(content_type, b';'));
    same_without_case(media_type, b"application/x-www-form-urlencoded")
        || same_without_case(media_type, b"multipart/form-data")
        || same_without_case(media_type, b"text/plain")
}

/// What stands before the first such byte, or all where there is none.
fn until(text: &[u8], byte: u8) -> &[u8]
    ensures { result.now ≡ before_first (λ b. b == byte) text.now }
{
    match index_of(text, byte) {
        Some(index) => &text[..index],
        None => text,
    }
}

/// The place of the first such byte.
fn index_of(text: &[u8], byte: u8) -> Option<usize>
    ensures { result ≡ position (λ b. b == byte) text.now }
{
    text.iter().position(|b| *b == byte)
}
