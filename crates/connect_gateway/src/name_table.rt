ghost use Rattle.std.specs.Prelude.{◌<◌, length, IfSome};

use std::alloc::{AllocError, Global};

/// That a name was not found is remembered for so many milliseconds.
const MISSED_FOR: u64 = 1_000;

/// Names that are being looked up, each once for all who wait for it, and those that were not found a short while ago.
#[derive(Drop)]
pub(crate) struct NameTable<W> {
    alloc: Global,
    names: Vec<Entry<W>>,
}

#[derive(Drop)]
struct Entry<W> {
    name: String,
    state: State<W>,
}

#[derive(Drop)]
enum State<W> {
    /// It is being looked up, and these wait for it.
    Asked(Vec<W>),
    /// It was not found, which is remembered up to this moment.
    Missed(u64),
}

/// What becomes of one who asks for a name.
#[derive(Drop)]
pub(crate) enum Asked<W> {
    /// He waits, and nobody looks the name up yet.
    First,
    /// He waits with others.
    Joined,
    /// The name was not found a short while ago. He does not wait.
    Missed(W),
}

impl<W: Drop> NameTable<W> {
    /// None yet.
    pub(crate) fn new(alloc: Global) -> NameTable<W> {
        NameTable {
            alloc,
            names: Vec::new(alloc),
        }
    }

    /// Somebody asks for the name at that moment. Without memory for that nothing changes.
    pub(crate) fn ask(
        &mut self,
        name: &str,
        waiter: W,
        moment: u64,
    ) -> Result<Asked<W>, AllocError> {
        self.forget_missed(moment);
        let Some(place) = self.place(name) else {
            let entry = Entry::new(self.alloc, name, waiter)?;
            self.names.push(entry)?;
            return Ok(Asked::First);
        };
        match &mut self.names[place].state {
            State::Asked(waiters) => {
                waiters.push(waiter)?;
                Ok(Asked::Joined)
            }
            State::Missed(_) => Ok(Asked::Missed(waiter)),
        }
    }

    /// The name was looked up, and found or not: who waits for it.
    pub(crate) fn end(&mut self, name: &str, is_found: bool, moment: u64) -> Vec<W> {
        let Some(place) = self.place(name) else {
            return Vec::new(self.alloc);
        };
        let Entry { name, state } = self.names.swap_remove(place);
        if !is_found {
            let state = State::Missed(moment.saturating_add(MISSED_FOR));
            // there is room
            let _ = self.names.push(Entry { name, state });
        }
        state.waiters(self.alloc)
    }

    /// Forgets names that were not found too long ago.
    fn forget_missed(&mut self, moment: u64) {
        self.names.retain(|entry| match &entry.state {
            State::Asked(_) => true,
            State::Missed(until) => moment < *until,
        });
    }

    /// Where the name stands.
    fn place(&self, name: &str) -> Option<usize>
        ensures { IfSome result (λ place. place < length self.now.names.items) }
    {
        self.names
            .iter()
            .position(|entry| entry.name.as_str() == name)
    }
}

impl<W: Drop> State<W> {
    /// Who waits for the name.
    fn waiters(self, alloc: Global) -> Vec<W> {
        match self {
            State::Asked(waiters) => waiters,
            State::Missed(_) => Vec::new(alloc),
        }
    }
}

impl<W: Drop> Entry<W> {
    /// A name for which one waits.
    fn new(alloc: Global, name: &str, waiter: W) -> Result<Entry<W>, AllocError> {
        let mut waiters = Vec::new(alloc);
        waiters.push(waiter)?;
        Ok(Entry {
            name: String::from_str(alloc, name)?,
            state: State::Asked(waiters),
        })
    }
}
