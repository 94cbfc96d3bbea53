//! Which fields of a call's request a branch may have passed on to its backend.
ghost use Rattle.std.specs.Prelude.{◌≡◌, ◌==◌};
ghost use Rattle.std.specs.List.{list_all, list_any};
ghost use Rattle.call_plan.specs.Pass.{begins_as, has_same_name, is_field_name, is_kept_back, is_pass_name, kept_beginnings, kept_names, is_token_byte, may_pass};
ghost use Rattle.http_pieces.specs.Names.{same_name};

use http_pieces::{Text, same_name};

const MAX_NAMES: usize = 16;

const MAX_FIELD_NAME: usize = 64;

const SIGNS: &[u8] = b"!#$%&'*+-.^_`|~";

const KEPT_NAMES: [&str; 12] = [
    "host",
    "connection",
    "keep-alive",
    "te",
    "trailer",
    "transfer-encoding",
    "upgrade",
    "expect",
    "range",
    "x-request-id",
    "accept-encoding",
    "http2-settings",
];

const KEPT_BEGINNINGS: [&str; 4] = ["content-", "connect-", "proxy-", "if-"];

/// Whether fields of these names may be passed on: at most 16 names, each once, and no name that is kept back.
#[tactic(auto, unfolding(crate::specs::Pass::may_pass))]
pub(crate) fn may_pass(names: &[Text]) -> bool
    ensures { result ≡ may_pass names.now }
{
    names.len() <= MAX_NAMES && are_pass_names(names) && !repeats_a_name(names)
}

fn are_pass_names(names: &[Text]) -> bool
    ensures { result ≡ list_all is_pass_name names.now }
{
    names.iter().all(is_pass_name)
}

fn is_pass_name(name: &Text) -> bool
    ensures { result ≡ is_pass_name name.now }
{
    is_field_name(name.as_str()) && !is_kept_back(name.as_str())
}

/// Whether it may be a field's name: a token of 1 to 64 bytes (RFC 9110, section 5.6.2).
#[tactic(auto, unfolding(crate::specs::Pass::is_field_name))]
pub fn is_field_name(name: &str) -> bool
    ensures { result ≡ is_field_name name.now }
{
    let bytes = name.as_bytes();
    1 <= bytes.len() && bytes.len() <= MAX_FIELD_NAME && are_token_bytes(bytes)
}

fn are_token_bytes(text: &[u8]) -> bool
    ensures { result ≡ list_all is_token_byte text.now }
{
    text.iter().all(|byte| is_token_byte(*byte))
}

fn is_token_byte(byte: u8) -> bool
    ensures { result ≡ is_token_byte byte }
{
    byte.is_ascii_alphanumeric() || holds(SIGNS, byte)
}

fn holds(text: &[u8], byte: u8) -> bool
    ensures { result ≡ list_any (λ other. other == byte) text.now }
{
    text.iter().any(|other| *other == byte)
}

/// Whether a field of that name is not passed on: the gateway writes it, or it belongs to a connection or to one
/// message alone.
#[tactic(auto, unfolding(crate::specs::Pass::is_kept_back))]
pub fn is_kept_back(name: &str) -> bool
    ensures { result ≡ is_kept_back name.now }
{
    is_kept_name(name.as_bytes()) || has_kept_beginning(name.as_bytes())
}

fn is_kept_name(name: &[u8]) -> bool
    ensures { result ≡ list_any (same_name name.now) kept_names }
{
    is_any(name, &KEPT_NAMES)
}

fn is_any(name: &[u8], others: &[&str]) -> bool
    ensures { result ≡ list_any (λ other. same_name name.now other.now) others.now }
{
    others.iter().any(|other| same_name(name, other.as_bytes()))
}

fn has_kept_beginning(name: &[u8]) -> bool
    ensures { result ≡ list_any (begins_as name.now) kept_beginnings }
{
    begins_as_any(name, &KEPT_BEGINNINGS)
}

fn begins_as_any(name: &[u8], beginnings: &[&str]) -> bool
    ensures { result ≡ list_any (λ beginning. begins_as name.now beginning.now) beginnings.now }
{
    beginnings
        .iter()
        .any(|beginning| begins_as(name, beginning.as_bytes()))
}

fn begins_as(name: &[u8], beginning: &[u8]) -> bool
    ensures { result ≡ begins_as name.now beginning.now }
{
    same_name(beginning, &name[..beginning.len().min(name.len())])
}

/// Whether two of the names may be one.
fn repeats_a_name(names: &[Text]) -> bool
    ensures { result ≡ has_same_name names.now }
{
    for (place, name) in names.iter().enumerate() {
        if holds_name(&names[place + 1..], name) {
            return true;
        }
    }
    false
}

/// Whether one of the names may be this one.
pub fn holds_name(names: &[Text], name: &Text) -> bool
    ensures { result ≡ list_any (same_name name.now) names.now }
{
    let name = name.as_str().as_bytes();
    names
        .iter()
        .any(|other| same_name(name, other.as_str().as_bytes()))
}
