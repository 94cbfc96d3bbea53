use crate::byte_string::Bytes;
use http::StatusCode;

/// A backend's whole reply.
#[derive(Debug, Drop)]
pub struct HttpReply {
    /// The status, from 200 to 999.
    pub status: StatusCode,
    /// The value of the one `Content-Type` field, without blanks at both ends; None where there is no
    /// such field, or more than one.
    pub content_type: Option<Bytes>,
    /// Whether the connection ends with this reply (RFC 9112, section 9.3): the reply is of HTTP/1.0, or a `Connection`
    /// field of it has the option `close`.
    pub closes: bool,
    /// The body: as many bytes as `Content-Length` says, or the data of its chunks, and none where the status is 204 or
    /// 304.
    pub body: Bytes,
}
