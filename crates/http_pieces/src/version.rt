/// The version of HTTP that a request line names (RFC 9112, section 2.3).
#[derive(Clone, Copy, PartialEq, Eq, Debug)]
pub enum Version {
    /// `HTTP/1.0`
    V10,
    /// `HTTP/1.1`
    V11,
}
