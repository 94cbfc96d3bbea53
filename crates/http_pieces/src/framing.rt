/// How a reply may say where its body ends.
#[derive(Clone, Copy, PartialEq, Eq, Debug)]
pub enum Framing {
    /// By `Content-Length` alone, as the specification has it.
    Fixed,
    /// Also by chunks (RFC 9112, section 7.1).
    Any,
}
