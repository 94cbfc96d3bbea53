ghost use Rattle.std.specs.Prelude.{◌≡◌, ℕ, IfOk, map};
ghost use Rattle.serde_json.specs.Data.{array};
ghost use Rattle.serde_json.specs.View.{view, items_of};
ghost use Rattle.error_document.specs.Documents.{plain_error, detail_document, document_of, error_text, read_error};

use crate::code::Code;
use crate::detail::Detail;
use crate::details::Details;
use http_pieces::{Bytes, Text};
use serde_json::{Map, Value, json, put};
use std::alloc::{AllocError, Global};
use thiserror::Error;

/// A failed call: why, a text for people, which may be empty, and what its server wants its client
/// to know besides.
#[derive(Debug, Drop, PartialEq, Eq, Error)]
#[error("{}: {}", .code.name(), .message.as_str())]
pub struct RpcError {
    pub code: Code,
    pub message: Text,
    pub details: Details,
}

impl RpcError {
    /// An error with no details.
    pub fn plain(alloc: Global, code: Code, message: &str) -> Result<RpcError, AllocError>
        ensures { IfOk result (λ error. error ≡ plain_error code message.now) }
    {
        Ok(RpcError {
            code,
            message: Text::from_str(alloc, message)?,
            details: Details::new(alloc),
        })
    }
}

impl Clone for RpcError {
    ghost is_clone = { λ error copy. copy ≡ error };

    fn clone(&self) -> Result<Self, AllocError> {
        Ok(RpcError {
            code: self.code,
            message: self.message.clone()?,
            details: self.details.clone()?,
        })
    }
}

/// The JSON document of an error, compact: `{"code":"NAME","details":[..],"message":"TEXT"}`, with no
/// details and no message where those are empty. A detail is `{"type":"NAME","value":"BASE64"}`.
pub fn write(alloc: Global, error: &RpcError) -> Result<Bytes, AllocError>
    ensures text { IfOk result (λ bytes. bytes ≡ error_text error.now) }
    ensures reads_back { IfOk result (λ bytes. (status : ℕ) → read_error status bytes ≡ error.now) }
{
    let value = value_of(alloc, error)?;
    Ok(Bytes::from_vec(value.to_vec(alloc)?))
}

// An object's members are written in the order of their keys.
fn value_of(alloc: Global, error: &RpcError) -> Result<Value, AllocError>
    ensures { IfOk result (λ value. view value ≡ document_of error.now) }
{
    let mut members = Map::new(alloc);
    let code = Value::try_from_str(alloc, error.code.name())?;
    put(&mut members, alloc, "code", code)?;
    if !error.details.is_empty() {
        let details = array_of(alloc, error.details.as_slice())?;
        put(&mut members, alloc, "details", details)?;
    }
    if !error.message.as_str().is_empty() {
        let message = Value::try_from_str(alloc, error.message.as_str())?;
        put(&mut members, alloc, "message", message)?;
    }
    Ok(Value::Object(members))
}

fn array_of(alloc: Global, details: &[Detail]) -> Result<Value, AllocError>
    ensures { IfOk result
        (λ value. view value ≡ array (items_of (map detail_document details.now))) }
{
    let mut entries = Vec::new(alloc);
    for detail in details {
        entries.push(entry_of(alloc, detail)?)?;
    }
    Ok(Value::Array(entries))
}

fn entry_of(alloc: Global, detail: &Detail) -> Result<Value, AllocError>
    ensures { IfOk result (λ value. view value ≡ detail_document detail.now) }
{
    json!(in alloc; {"type": detail.type_name.as_str(), "value": detail.value.as_str()})
}
