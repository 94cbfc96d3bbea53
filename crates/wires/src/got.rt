use std::io::ErrorKind;

/// What a read came to that does not wait.
#[derive(Clone, Copy, PartialEq, Eq, Debug)]
pub enum Got {
    /// So many bytes, and at least one.
    Bytes(usize),
    /// None yet: it would have had to wait.
    Nothing,
    /// None: a signal came first. There may be some.
    Interrupted,
    /// None, and no more will come. The peer has ended its side, or the read failed so.
    End(Option<ErrorKind>),
}

/// What a write came to that does not wait.
#[derive(Clone, Copy, PartialEq, Eq, Debug)]
pub enum Sent {
    /// So many bytes were taken, and at least one.
    Bytes(usize),
    /// None: it would have had to wait.
    Nothing,
    /// None: a signal came first. Some may be taken.
    Interrupted,
    /// None, and no more will be taken. The write failed so.
    Failed(ErrorKind),
}
