ghost use Rattle.std.specs.Prelude.{◌≡◌};
ghost use Rattle.gateway_loop.specs.Rests.{is_at_most};

/// So many exchanges with backends are under way at most; further jobs wait in the core.
pub const MOST_EXCHANGES: usize = 1_024;

/// So many connections linger at most; a further one is closed at once.
pub const MOST_LINGERING: usize = 64;

/// So many streams to backends wait for the backend's end at most; where one more does, the oldest is closed.
pub const MOST_CLOSING: usize = 64;

/// So many jobs go over a stream that is kept at most.
pub const MOST_USES: u32 = 1_000;

/// A stream is kept for so many times the time for which one is kept at most, from the moment at which it was made.
pub const MOST_AGE: u64 = 10;

/// So many addresses of a name are tried at most.
pub const MOST_ADDRESSES: usize = 32;

/// Places for clients: of the connections that are open, of which a core has at most 64, and of those that linger.
pub(crate) const MOST_CLIENTS: usize = 128;

/// So often a client's stream is written in a turn at most.
pub(crate) const MOST_WRITES: u32 = 16;

/// So many exchanges are begun in a turn at most.
pub(crate) const MOST_STARTS: u32 = 256;

/// How long a connection lingers, in milliseconds.
pub(crate) const LINGER: u64 = 2_000;

/// How long a stream whose reply came whole waits for its backend's end, in milliseconds.
pub(crate) const CLOSING: u64 = 50;

/// How long an address has to accept that another follows, where the job has no deadline, in milliseconds.
pub(crate) const ATTEMPT: u64 = 1_000;

/// Whether the moment, if there is one, is no later than the limit, if there is one.
pub(crate) fn is_not_after(moment: Option<u64>, limit: Option<u64>) -> bool
    ensures { result ≡ is_at_most moment limit }
{
    match (moment, limit) {
        (_, None) => true,
        (None, Some(_)) => false,
        (Some(moment), Some(limit)) => moment <= limit,
    }
}

/// Whether the deadline has come.
pub(crate) fn is_due(deadline: Option<u64>, moment: u64) -> bool {
    matches!(deadline, Some(deadline) if deadline <= moment)
}

/// How many places are looked at: as many as before, and this one, which was taken. Where it is the only one that is,
/// only those up to it.
pub(crate) fn places_with(before: usize, place: usize, taken: usize) -> usize {
    let with = place.saturating_add(1);
    if taken == 1 { with } else { before.max(with) }
}
