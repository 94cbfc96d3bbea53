/// What the finish of a task gives: the task to start in its place, and whether it brought the first error.
#[derive(Debug, Drop, PartialEq, Eq)]
pub struct Freed<T> {
    /// The task that waited longest. The caller starts it now.
    pub next: Option<T>,
    /// Whether this finish brought the group's first error.
    pub first: bool,
}
