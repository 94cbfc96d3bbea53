/// How a branch's result was seen.
#[derive(Clone, Copy, PartialEq, Eq, Debug)]
pub enum Seen {
    /// The branch was out and its call undecided.
    Counted,
    /// The branch was out, and its call decided or its connection closed or broken.
    Late,
    /// The branch was not out. Nothing changed.
    Unknown,
}
