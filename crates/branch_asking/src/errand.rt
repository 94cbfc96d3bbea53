ghost use Rattle.std.specs.Prelude.{◌≡◌};

use wires::Ready;

/// What a loop notes of a job that it asks for. No law speaks of it.
#[derive(Drop)]
pub struct Errand {
    /// The place of the client that waits for its answer, if one did as it began.
    pub client: Option<usize>,
    /// The moment at which it began.
    pub began: u64,
    /// Whether its backend is known to have ended its stream.
    pub has_ended: bool,
    /// Whether other jobs went over its stream before.
    pub is_reused: bool,
    /// Its number among those that wait for its name, if it does.
    pub waits: Option<usize>,
}

impl Errand {
    /// Of a job for the client in that place, if there is one, which begins at that moment.
    pub fn new(client: Option<usize>, began: u64) -> Errand {
        Errand {
            client,
            began,
            has_ended: false,
            is_reused: false,
            waits: None,
        }
    }

    /// Something became possible; whether that may be told of another's stream, too, that had the token before.
    pub(crate) fn note_ready(&mut self, ready: Ready, is_shared: bool) {
        self.has_ended |= ready.read_closed && !is_shared;
    }

    /// It waits for its name under this number, or no more.
    pub fn set_waits(&mut self, waits: Option<usize>)
        ensures { self.new ≡ record self.old { waits = waits } }
    {
        self.waits = waits;
    }

    /// It has another stream now; whether other jobs went over that before.
    pub(crate) fn goes_over(&mut self, is_reused: bool) {
        self.has_ended = false;
        self.is_reused = is_reused;
    }
}
