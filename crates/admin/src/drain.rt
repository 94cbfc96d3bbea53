ghost use Rattle.std.specs.Prelude.{◌≡◌, Some, None};
ghost use Rattle.std.specs.Option.{option_map_or};
ghost use Rattle.admin.specs.Drain.{drain_value, first_of, stage_of, time_left};

use std::marker::Model;

/// Streams are cut so long after the calls that were left were ended, in milliseconds: until then their replies are
/// written.
const LAST_WRITES: u64 = 2_000;

/// How far a drain is.
#[derive(Clone, Copy, PartialEq, Eq, Debug)]
pub enum Stage {
    /// None was asked for.
    Serves,
    /// Streams are still accepted, though nobody is to send any.
    Accepts,
    /// Nobody listens, once no stream waits any more. Connections are closed as soon as nothing is owed to them.
    Closes,
    /// Calls that are left are ended.
    Ends,
    /// Streams that are left are cut.
    Cuts,
}

/// When a drain was asked for, and how long its stages last. Moments and times are in milliseconds.
#[derive(Debug, Drop)]
pub struct Drain {
    // how long streams are still accepted
    after: u64,
    // how long calls go on once nobody listens
    grace: u64,
    // when it was asked for
    begun: Option<u64>,
    // since when nobody listens
    closed: Option<u64>,
}

impl Model for Drain {
    ghost use Rattle.admin.specs.Drain.{DrainValue, drain_value};

    ghost Value = { DrainValue };

    ghost view = { λ d. drain_value d.after d.grace d.begun d.closed };
}

impl Drain {
    /// None yet: once it begins streams are accepted for so long, and calls go on for so long then.
    pub fn new(after: u64, grace: u64) -> Drain
        ensures { result ≡ drain_value after grace None None }
    {
        Drain {
            after,
            grace,
            begun: None,
            closed: None,
        }
    }

    /// It was asked for at that moment. Of several the first counts.
    pub fn begin(&mut self, moment: u64)
        ensures { self.new ≡ record self.old { begun = first_of self.old.begun moment } }
    {
        if self.begun.is_none() {
            self.begun = Some(moment);
        }
    }

    /// Nobody listens from that moment on. Of several the first counts.
    pub fn close(&mut self, moment: u64)
        ensures { self.new ≡ record self.old { closed = first_of self.old.closed moment } }
    {
        if self.closed.is_none() {
            self.closed = Some(moment);
        }
    }

    /// How far it is at that moment.
    pub fn stage(&self, moment: u64) -> Stage
        ensures { result ≡ stage_of self.now moment }
    {
        let Some(begun) = self.begun else {
            return Stage::Serves;
        };
        let passed = moment.saturating_sub(begun);
        if passed < self.after {
            return Stage::Accepts;
        }
        let Some(closed) = self.closed else {
            return Stage::Closes;
        };
        let waited = (passed - self.after).min(moment.saturating_sub(closed));
        if waited < self.grace {
            Stage::Closes
        } else if waited - self.grace < LAST_WRITES {
            Stage::Ends
        } else {
            Stage::Cuts
        }
    }

    /// How long after that moment the next stage begins, if one does by itself.
    pub fn time_left(&self, moment: u64) -> Option<u64>
        ensures { result ≡ time_left self.now moment }
    {
        let passed = moment.saturating_sub(self.begun?);
        if passed < self.after {
            return Some(self.after - passed);
        }
        let waited = (passed - self.after).min(moment.saturating_sub(self.closed?));
        if waited < self.grace {
            Some(self.grace - waited)
        } else if waited - self.grace < LAST_WRITES {
            Some(LAST_WRITES - (waited - self.grace))
        } else {
            None
        }
    }
}
