/// Why a stream of requests is refused. Each refusal ends the stream. They are judged in this order.
#[derive(Clone, Copy, PartialEq, Eq, Debug)]
pub enum Refusal {
    /// 8,192 bytes have come, and the head's end is not among them (431).
    HeadTooLarge,
    /// The bytes up to the first empty line are not one request head of at most 64 fields (400).
    NotAHead,
    /// There is a `Transfer-Encoding` field: bodies of unknown length are not read (411).
    LengthRequired,
    /// `Content-Length` is repeated, or is not 1 to 10 decimal digits (400).
    BadLength,
    /// HTTP/1.1 without a `Host` field, or more than one (400).
    BadHost,
    /// `Content-Length` is above 65,536 (429).
    BodyTooLarge,
}
