/// What may end many calls at once.
#[derive(Clone, Copy, Debug)]
pub enum Trigger {
    /// The moment is this, in milliseconds, and may have reached their deadlines, or those of their branches.
    Reached(u64),
    /// The peer of the connection of that number hung up.
    HungUp(u64),
    /// The gateway was drained.
    Drained,
}
