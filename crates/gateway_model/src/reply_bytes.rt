use http_pieces::Bytes;

/// The bytes of a reply, and whether it is its connection's last.
#[derive(Debug, Drop, PartialEq, Eq)]
pub struct ReplyBytes {
    pub bytes: Bytes,
    /// Whether it is the connection's last: no request behind it is read.
    pub last: bool,
}
