/// Whether a group has come to its end.
#[derive(Debug, Drop, PartialEq, Eq)]
pub enum Waited<'a, E> {
    /// Something is active or queued.
    Running,
    /// Nothing is active or queued. The first error, if there was one.
    Finished(Option<&'a E>),
}
