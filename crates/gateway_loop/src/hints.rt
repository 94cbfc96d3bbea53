use std::alloc::Global;
use std::mem;

/// What else a loop knows of a client. No law speaks of it.
#[derive(Drop)]
pub(crate) struct Hints {
    // the places of the exchanges for its calls, in no order
    pub(crate) exchanges: Vec<usize>,
    // whether it is among those that may have news
    pub(crate) is_noted: bool,
    // whether the last piece that it brought made no request, so that one may be half read
    pub(crate) is_half_read: bool,
}

impl Hints {
    /// Of a new client.
    pub(crate) fn new(alloc: Global) -> Hints {
        Hints {
            exchanges: Vec::new(alloc),
            is_noted: false,
            is_half_read: false,
        }
    }

    /// Whether it is among those that may have news from now on. Answers whether it was.
    pub(crate) fn set_noted(&mut self, is_noted: bool) -> bool {
        mem::replace(&mut self.is_noted, is_noted)
    }

    pub(crate) fn set_half_read(&mut self, is_half_read: bool) {
        self.is_half_read = is_half_read;
    }

    /// The exchange in that place is for it. False for want of memory.
    pub(crate) fn enlist(&mut self, place: usize) -> bool {
        self.exchanges.push(place).is_ok()
    }

    /// The places of its exchanges, which it has no longer.
    pub(crate) fn take_exchanges(&mut self, alloc: Global) -> Vec<usize> {
        mem::replace(&mut self.exchanges, Vec::new(alloc))
    }

    /// The exchange in that place is over.
    pub(crate) fn forget_exchange(&mut self, place: usize) {
        if let Some(index) = self.exchanges.iter().position(|other| *other == place) {
            self.exchanges.swap_remove(index);
        }
    }
}
