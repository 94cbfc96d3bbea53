//! Fields by which a backend knows a connection, and not one request alone.

use gateway_core::Job;
use http_pieces::{Field, Text, same_name};

/// The field in which a caller tells who it is.
const AUTHORIZATION: &[u8] = b"authorization";

/// The ways to log in that count for all that follows on the connection (RFC 4559, section 6).
const OF_CONNECTIONS: [&str; 2] = ["negotiate", "ntlm"];

/// Whether the job passes on a field by which its backend may take whatever follows on the connection for the caller's.
pub(crate) fn logs_in(job: &Job) -> bool {
    let passed = job.passed();
    if !passes_on(passed.names) {
        return false;
    }
    match passed.request.field(AUTHORIZATION) {
        Field::None => false,
        Field::One(value) => is_of_connection(value),
        Field::Many => true,
    }
}

/// Whether `Authorization` is one of these names.
fn passes_on(names: &[Text]) -> bool {
    names
        .iter()
        .any(|name| same_name(name.as_str().as_bytes(), AUTHORIZATION))
}

/// Whether it begins with the name of such a way, in any case.
fn is_of_connection(value: &[u8]) -> bool {
    OF_CONNECTIONS.iter().any(|way| same_name(way.as_bytes(), &value[..way.len().min(value.len())]))
}
