ghost use Rattle.std.specs.Prelude.{◌≡◌};
ghost use Rattle.wires.specs.Wires.{is_stop, is_to_read};

/// That something may be done without waiting at the stream of this token. It may be stale, or name nobody.
#[derive(Clone, Copy, PartialEq, Eq, Debug)]
pub struct Ready {
    pub token: usize,
    pub readable: bool,
    pub writable: bool,
    /// Whether its peer has ended its side, so that a read may find the end behind what is there.
    pub read_closed: bool,
    /// Whether an urgent byte came (TCP's urgent mark): a read stops short of it, whatever is behind it.
    pub urgent: bool,
}

impl Ready {
    /// Whether reads may stop short from now on: neither an end nor what is behind an urgent mark has a report of its
    /// own.
    pub(crate) fn is_stop(&self) -> bool
        ensures { result ≡ is_stop self.now }
    {
        self.read_closed || self.urgent
    }

    /// Whether a read may bring something, if only the end.
    pub(crate) fn is_to_read(&self) -> bool
        ensures { result ≡ is_to_read self.now }
    {
        self.readable || self.is_stop()
    }
}
