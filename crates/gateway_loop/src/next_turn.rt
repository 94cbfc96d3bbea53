ghost use Rattle.std.specs.Prelude.{◌≡◌};
ghost use Rattle.gateway_loop.specs.NextTurns.{due_by};

/// When the next turn of a loop is due, though nothing comes.
#[derive(Clone, Copy, PartialEq, Eq, Debug)]
pub enum NextTurn {
    /// At once: something is left to be done.
    AtOnce,
    /// At this moment, in milliseconds.
    At(u64),
    /// Not before something comes.
    Never,
}

impl NextTurn {
    /// Where the first limit ends at that moment, if there is one. A limit that has passed by the present moment is due
    /// at once: a loop that has it does not rest.
    pub(crate) fn by(until: Option<u64>, moment: u64) -> NextTurn
        ensures { result ≡ due_by until moment }
    {
        match until {
            Some(until) if until <= moment => NextTurn::AtOnce,
            Some(until) => NextTurn::At(until),
            None => NextTurn::Never,
        }
    }
}
