/// What became of a release.
#[derive(Clone, Copy, Debug, PartialEq, Eq)]
pub enum Released {
    /// The context is gone: its id is unknown from now on, it is not handed out, and no deadline of its own is waited
    /// for.
    Gone,
    /// A context that is held derives from it. Nothing changed.
    HasChildren,
    /// The id was never given by this tree, or its context was released.
    Unknown,
}
