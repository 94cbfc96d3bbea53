//! The error that a backend's reply stands for.
ghost use Rattle.std.specs.Prelude.{◌≡◌, ◌≢◌, [], IfOk, None, codes, string_bytes, option_map, option_and_then};
ghost use Rattle.serde_json.specs.View.{view, items_view};
ghost use Rattle.error_document.specs.Codes.{code_named};
ghost use Rattle.json_values.specs.Json.{text_at};
ghost use Rattle.error_document.specs.Documents.{detail_of, detail_entries, details_in, status_message, error_from, read_error};

use crate::code::{Code, inferred_code};
use crate::detail::Detail;
use crate::details::Details;
use crate::document::RpcError;
use http::StatusCode;
use http_pieces::Text;
use json_values::{json_value, text_at};
use serde_json::Value;
use std::alloc::{AllocError, Global};

/// The error that a reply with this status and body stands for; a reply with status 200 is no error.
///
/// The body is read as an error document whatever its content type says. Where it names none of the
/// codes, the code is inferred from the status, the message is the body's, or `HTTP status NNN`, and
/// there are no details. Else the details are those entries of its array `details` that are objects
/// with texts `type` and `value`, in order.
pub fn read(alloc: Global, status: StatusCode, body: &[u8]) -> Result<RpcError, AllocError>
    requires { status ≢ 200 }
    ensures { IfOk result (λ error. error ≡ read_error status body.now) }
{
    let Some(document) = json_value(alloc, body)? else {
        return inferred(alloc, status, None);
    };
    let message = text_at(&document, "message");
    let Some(code) = code_in(&document) else {
        return inferred(alloc, status, message);
    };
    Ok(RpcError {
        code,
        message: Text::from_str(alloc, message.unwrap_or(""))?,
        details: details_in(alloc, &document)?,
    })
}

// The error of a body that names no code.
fn inferred(
    alloc: Global,
    status: StatusCode,
    message: Option<&str>,
) -> Result<RpcError, AllocError>
    ensures { IfOk result
        (λ error. error ≡ error_from status None (option_map (λ text. text.now) message.entry) []) }
{
    let code = inferred_code(status);
    match message {
        Some(message) => RpcError::plain(alloc, code, message),
        None => RpcError::plain(alloc, code, message_for(alloc, status)?.as_str()),
    }
}

fn message_for(alloc: Global, status: StatusCode) -> Result<String, AllocError>
    ensures { IfOk result (λ message. string_bytes message ≡ status_message status) }
{
    format!(in alloc; "HTTP status {}", status.as_str())
}

fn code_in(document: &Value) -> Option<Code>
    ensures { result ≡ option_and_then code_named (text_at (codes "code") (view document.now)) }
{
    Code::from_name(text_at(document, "code")?.as_bytes())
}

// What is no detail is left out.
fn details_in(alloc: Global, document: &Value) -> Result<Details, AllocError>
    ensures { IfOk result (λ details. details ≡ details_in (view document.now)) }
{
    let mut details = Vec::new(alloc);
    for entry in entries_in(document) {
        if let Some(detail) = detail_of(alloc, entry)? {
            details.push(detail)?;
        }
    }
    Ok(Details::from_vec(details))
}

fn entries_in(document: &Value) -> &[Value]
    ensures { items_view result.now ≡ detail_entries (view document.now) }
{
    match document.get("details").and_then(Value::as_array) {
        Some(entries) => entries.as_slice(),
        None => &[],
    }
}

fn detail_of(alloc: Global, entry: &Value) -> Result<Option<Detail>, AllocError>
    ensures { IfOk result (λ detail. detail ≡ detail_of (view entry.now)) }
{
    let (Some(type_name), Some(value)) = (text_at(entry, "type"), text_at(entry, "value")) else {
        return Ok(None);
    };
    Ok(Some(Detail {
        type_name: Text::from_str(alloc, type_name)?,
        value: Text::from_str(alloc, value)?,
    }))
}
