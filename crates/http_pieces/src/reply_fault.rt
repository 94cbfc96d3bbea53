use http::StatusCode;

/// Why a backend's reply is refused. The faults are judged in this order. Where its head was read the fault has its
/// status.
#[derive(Clone, Copy, PartialEq, Eq, Debug)]
pub enum ReplyFault {
    /// 8,192 bytes have come, and the head's end is not among them.
    HeadTooLarge,
    /// The bytes up to the first empty line are not one response head of at most 64 fields and with
    /// a status from 200 to 999.
    NotAHead,
    /// The body's length is not told by `Content-Length` alone: there is a `Transfer-Encoding` field,
    /// or no `Content-Length`, though the status is not 204 or 304. Where chunks are taken, they are told likewise: by
    /// `Transfer-Encoding: chunked` alone, in a reply of HTTP/1.1.
    NotFixedLength(StatusCode),
    /// `Content-Length` is repeated, or is not 1 to 10 decimal digits.
    BadLength(StatusCode),
    /// The body has more than 65,536 bytes.
    BodyTooLarge(StatusCode),
    /// The body is in chunks, and is not what RFC 9112, section 7.1 says, or has more than 8,192 bytes of extensions
    /// and trailers.
    BadChunk(StatusCode),
}
