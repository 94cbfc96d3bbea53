ghost use Rattle.std.specs.Prelude.{◌≡◌, ◌+◌, ◌<◌, Ok, IfOk, OnOk, OnErr, List, [], ◌∷◌, ◌++◌, length, None, Some, IfErr, IsTrue, is_ok, false, if◌then◌else◌, unwrap_or};
ghost use Rattle.std.specs.Bool.{OnTrue, OnFalse};
ghost use Rattle.err_group.specs.GroupState.{is_idle, has_room, TellsEnd, freed_by, Finishes};
ghost use Rattle.err_group.specs.Group.{Operation, SetLimit, TryGo, Go, Done, ClearQueue, no_limit, after, StandsFor, IsReached};

use crate::error::Active;
use crate::freed::Freed;
use crate::waited::Waited;
use std::alloc::{AllocError, Global};
use std::collections::VecDeque;
use std::marker::Model;

/// Tasks of one purpose, of which at most so many are active at a time, as in Go's `errgroup.Group`. A group runs
/// nothing: it tells its caller what to start, and is told what has finished, and how.
///
/// Contracts see a `GroupState`. Each group stands for the operations that made it (*Group*): the clause `group` of a
/// call says, for any operations before it, what the call answers and what the group stands for then. What holds after
/// any operations is in `laws`.
#[derive(Debug, Drop)]
pub struct Group<T, E> {
    active: u32,
    limit: u32,
    queue: VecDeque<T>,
    first_error: Option<E>,
}

impl<T, E> Model for Group<T, E> {
    ghost use Rattle.err_group.specs.GroupState.{GroupState};
    ghost use Rattle.err_group.specs.Group.{IsReached};

    ghost Value = { GroupState T E };

    ghost view = { λ g. record {
      active = g.active;
      limit = g.limit;
      queue = g.queue.items;
      first_error = g.first_error;
    } };

    ghost invariant = { λ g. IsReached {T = T} {E = E} (record {
      active = g.active;
      limit = g.limit;
      queue = g.queue.items;
      first_error = g.first_error;
    }) };
}

impl<T, E> Group<T, E> {
    /// A group of no tasks, without limit. What it queues later is kept on this allocator.
    pub fn new(alloc: Global) -> Self
        ensures empty { result ≡ record { active = 0; limit = no_limit; queue = []; first_error = None } }
        ensures group { StandsFor result [] }
    {
        Group {
            active: 0,
            limit: u32::MAX,
            queue: VecDeque::new(alloc),
            first_error: None,
        }
    }

    /// Sets how many tasks may be active at a time; with 0 none starts. `None` stands for no limit, which is
    /// 4,294,967,295. Refused exactly while something is active or queued.
    pub fn set_limit(&mut self, limit: Option<u32>) -> Result<(), Active>
        ensures idle { is_ok result ≡ is_idle self.old }
        ensures ok { OnOk result (self.new ≡ record self.old { limit = unwrap_or limit no_limit }) }
        ensures err { OnErr result (self.new ≡ self.old) }
        ensures group { (operations : List (Operation T E)) → StandsFor self.old operations
            → (is_ok result ≡ is_idle (after operations)) × StandsFor self.new (SetLimit limit ∷ operations) }
    {
        if !self.is_idle() {
            return Err(Active);
        }
        self.limit = limit.unwrap_or(u32::MAX);
        Ok(())
    }

    /// Starts a task if fewer than the limit are active: true exactly then.
    pub fn try_go(&mut self) -> bool
        ensures room { result ≡ has_room self.old }
        ensures started { OnTrue result (self.new ≡ record self.old { active = self.old.active + 1 }) }
        ensures full { OnFalse result (self.new ≡ self.old) }
        ensures group { (operations : List (Operation T E)) → StandsFor self.old operations
            → (result ≡ has_room (after operations)) × StandsFor self.new (TryGo ∷ operations) }
    {
        let room = self.active < self.limit;
        if room {
            self.active += 1;
        }
        room
    }

    /// Starts the task if fewer than the limit are active, and gives it back as `Some`; else queues it. Only queueing
    /// takes memory. Where that is refused, the task comes back beside the refusal, and the group is as it was.
    pub fn go(&mut self, task: T) -> Result<Option<T>, (T, AllocError)>
        ensures started { IsTrue (has_room self.old)
            → (result ≡ Ok (Some task)) × (self.new ≡ record self.old { active = self.old.active + 1 }) }
        ensures queued { has_room self.old ≡ false → IfOk result (λ started.
            (started ≡ None) × (self.new ≡ record self.old { queue = self.old.queue ++ task ∷ [] })) }
        ensures err { IfErr result (λ refused. (refused.0 ≡ task) × (self.new ≡ self.old)) }
        ensures group { (operations : List (Operation T E)) → StandsFor self.old operations → IfOk result (λ started.
            (started ≡ (if has_room (after operations) then Some task else None))
            × StandsFor self.new (Go task ∷ operations)) }
    {
        if self.active < self.limit {
            self.active += 1;
            return Ok(Some(task));
        }
        self.queue
            .push_back(task)
            .map_err(|refused| (refused.value, AllocError))?;
        Ok(None)
    }

    /// An active task has finished, with this outcome. The queue's first is started in its place; the first error is
    /// kept, and a later one is dropped. With nothing active nothing changes, and the outcome is dropped.
    pub fn done(&mut self, outcome: Result<(), E>) -> Freed<T>
    where
        E: Drop,
        ensures freed { result ≡ freed_by outcome self.old }
        ensures finishes { 0 < self.old.active → Finishes self.old self.new outcome }
        ensures unchanged { self.old.active ≡ 0 → self.new ≡ self.old }
        ensures group { (operations : List (Operation T E)) → StandsFor self.old operations
            → (result ≡ freed_by outcome (after operations)) × StandsFor self.new (Done outcome ∷ operations) }
    {
        if self.active == 0 {
            return Freed {
                next: None,
                first: false,
            };
        }
        let next = self.queue.pop_front();
        if next.is_none() {
            self.active -= 1;
        }
        let first = self.first_error.is_none() && outcome.is_err();
        self.first_error = self.first_error.take().or(outcome.err());
        Freed { next, first }
    }

    /// Removes and drops what is queued.
    pub fn clear_queue(&mut self)
    where
        T: Drop,
        ensures cleared { self.new ≡ record self.old { queue = [] } }
        ensures group { (operations : List (Operation T E)) → StandsFor self.old operations
            → StandsFor self.new (ClearQueue ∷ operations) }
    {
        self.queue.clear();
    }

    /// Whether the group has finished, and with which error. Unlike Go's `Wait` it does not block.
    pub fn wait(&self) -> Waited<'_, E>
        ensures end { TellsEnd self.now result }
        ensures group { (operations : List (Operation T E)) → StandsFor self.now operations
            → TellsEnd (after operations) result }
    {
        if self.is_idle() {
            return Waited::Finished(self.first_error.as_ref());
        }
        Waited::Running
    }

    fn is_idle(&self) -> bool
        ensures { result ≡ is_idle self.now }
    {
        self.active == 0 && self.queue.is_empty()
    }

    /// How many tasks are active.
    pub fn active(&self) -> u32
        ensures active { result ≡ self.now.active }
        ensures group { (operations : List (Operation T E)) → StandsFor self.now operations
            → result ≡ (after operations).active }
        ensures reached { IsReached self.now }
    {
        self.active
    }

    /// How many tasks are queued.
    pub fn queued(&self) -> usize
        ensures queued { result ≡ length self.now.queue }
        ensures group { (operations : List (Operation T E)) → StandsFor self.now operations
            → result ≡ length (after operations).queue }
        ensures reached { IsReached self.now }
    {
        self.queue.len()
    }
}
