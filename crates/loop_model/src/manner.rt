use http_pieces::Framing;

/// How a loop asks its backends.
#[derive(Clone, Copy, PartialEq, Eq, Debug)]
pub struct Manner {
    /// How the bodies of their replies may be framed.
    pub framing: Framing,
    /// Whether a connection to one is kept once its reply is whole, and used again.
    pub keeps: bool,
}
