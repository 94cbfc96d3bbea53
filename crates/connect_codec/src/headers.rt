ghost use Rattle.std.specs.Prelude.{◌≡◌, ℕ, List, IfOk, codes};
ghost use Rattle.std.specs.Option.{option_copied};
ghost use Rattle.std.specs.List.{list_all};
ghost use Rattle.http_pieces.specs.Fields.{IsFieldOf, values_of};
ghost use Rattle.connect_codec.specs.Headers.{is_one, is_absent_or_one, is_json_type, is_identity, is_version_1, is_visible, is_request_id, request_id_of};

use crate::text::until;
use http_pieces::{Bytes, Field, Request, same_without_case, trim_blanks};
use std::alloc::{AllocError, Global};

/// Whether the one value of a `Content-Type` field is JSON.
pub(crate) fn names_json(content_type: Field<'_>) -> bool
    ensures { (values : List (List ℕ)) → IsFieldOf values content_type.entry
        → result ≡ is_one is_json_type values }
{
    match content_type {
        Field::One(value) => is_json_type(value),
        _ => false,
    }
}

/// Whether the media type is `application/json`, whatever its parameters.
#[tactic(auto, unfolding(crate::specs::Headers::is_json_type))]
pub(crate) fn is_json_type(content_type: &[u8]) -> bool
    ensures { result ≡ is_json_type content_type.now }
{
    same_without_case(trim_blanks(until(content_type, b';')), b"application/json")
}

/// Whether a `Content-Encoding` field says that the content is not encoded.
pub(crate) fn is_plain(content_encoding: Field<'_>) -> bool
    ensures { (values : List (List ℕ)) → IsFieldOf values content_encoding.entry
        → result ≡ is_absent_or_one is_identity values }
{
    match content_encoding {
        Field::None => true,
        Field::One(value) => same_without_case(value, b"identity"),
        Field::Many => false,
    }
}

/// Whether a `Connect-Protocol-Version` field names the version that there is.
pub(crate) fn is_known_version(version: Field<'_>) -> bool
    ensures { (values : List (List ℕ)) → IsFieldOf values version.entry
        → result ≡ is_absent_or_one is_version_1 values }
{
    match version {
        Field::None => true,
        Field::One(value) => matches!(value, b"1"),
        Field::Many => false,
    }
}

/// The id that the request names, if its field `X-Request-Id` has one value that is an id.
pub fn named_id(request: &Request) -> Option<&[u8]>
    ensures { option_copied result ≡ request_id_of (values_of (codes "X-Request-Id") request.now.fields) }
{
    match request.field(b"X-Request-Id") {
        Field::One(value) if is_request_id(value) => Some(value),
        _ => None,
    }
}

/// The id that an `X-Request-Id` field gives the request.
pub(crate) fn request_id(alloc: Global, id: Field<'_>) -> Result<Option<Bytes>, AllocError>
    ensures { (values : List (List ℕ)) → IsFieldOf values id.entry
        → IfOk result (λ found. found ≡ request_id_of values) }
{
    match id {
        Field::One(value) if is_request_id(value) => Ok(Some(Bytes::from_slice(alloc, value)?)),
        _ => Ok(None),
    }
}

#[tactic(auto, unfolding(crate::specs::Headers::is_request_id))]
fn is_request_id(value: &[u8]) -> bool
    ensures { result ≡ is_request_id value.now }
{
    !value.is_empty() && value.len() <= 128 && is_visible_text(value)
}

fn is_visible_text(text: &[u8]) -> bool
    ensures { result ≡ list_all is_visible text.now }
{
    text.iter().all(|b| b.is_ascii_graphic())
}
