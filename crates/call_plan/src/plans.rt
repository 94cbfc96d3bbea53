ghost use Rattle.std.specs.Prelude.{◌≡◌, ◌∷◌, ◌++◌, [], length, option_map, is_some, IsTrue, ◌↔◌, OnOk, OnErr, IsOkUnless, MatchOption};
ghost use Rattle.std.specs.Arc.{arc_value};
ghost use Rattle.call_plan.specs.Plans.{AreLawful, plan_at, insert_fault};
ghost use Rattle.call_plan.specs.declared.error.PlanError.TheVariants.{Memory};

use crate::error::PlanError;
use crate::plan::Plan;
use std::alloc::Global;
use std::marker::Model;
use std::sync::Arc;

const MAX_PLANS: usize = 256;

/// The plans of a gateway, each shared with the calls that run it.
///
/// Contracts see the list of them, in the order in which they were inserted. No two have one path, and there are at
/// most 256.
#[derive(Debug, Drop)]
pub struct Plans {
    shared: Vec<Arc<Plan>>,
}

impl Model for Plans {
    ghost use Rattle.std.specs.Prelude.{List, map};
    ghost use Rattle.std.specs.Arc.{arc_value};
    ghost use Rattle.call_plan.specs.Plan.{PlanRecord};
    ghost use Rattle.call_plan.specs.Plans.{AreLawful};

    ghost Value = { List PlanRecord };

    ghost view = { λ p. map arc_value p.shared.items };

    ghost invariant = { λ p. AreLawful (map arc_value p.shared.items) };
}

impl Plans {
    /// No plans. Later ones are kept on this allocator.
    pub fn new(alloc: Global) -> Plans
        ensures { result ≡ [] }
    {
        Plans {
            shared: Vec::new(alloc),
        }
    }

    /// Adds a plan, or answers the first fault of `RepeatedPath`, `TooManyPlans` and `Memory`. A plan that is refused
    /// is dropped.
    #[tactic(auto, unfolding(crate::specs::Plans::insert_fault))]
    pub fn insert(&mut self, plan: Plan) -> Result<(), PlanError>
        ensures inserted { OnOk result (self.new ≡ self.old ++ plan ∷ []) }
        ensures unchanged { OnErr result (self.new ≡ self.old) }
        ensures refused { MatchOption (insert_fault self.old plan)
            (IsOkUnless result Memory) (λ e. result ≡ Err e) }
    {
        if self.holds(plan.path()) {
            return Err(PlanError::RepeatedPath);
        }
        if self.len() >= MAX_PLANS {
            return Err(PlanError::TooManyPlans);
        }
        let plan = Arc::new(*self.shared.allocator(), plan)?;
        self.shared.push(plan)?;
        Ok(())
    }

    fn holds(&self, path: &str) -> bool
        ensures { result ≡ is_some (plan_at path.now self.now) }
    {
        self.find(path.as_bytes()).is_some()
    }

    /// The plan of that path, if there is one.
    pub fn find(&self, path: &[u8]) -> Option<&Arc<Plan>>
        ensures found { option_map (λ p. arc_value p.now) result ≡ plan_at path.now self.now }
        ensures lawful { AreLawful self.now }
    {
        self.shared
            .iter()
            .find(|plan| plan.path().as_bytes() == path)
    }

    /// How many plans there are.
    pub fn len(&self) -> usize
        ensures len { result ≡ length self.now }
        ensures lawful { AreLawful self.now }
    {
        self.shared.len()
    }

    /// Whether there are none.
    pub fn is_empty(&self) -> bool
        ensures { IsTrue result ↔ (self.now ≡ []) }
    {
        self.shared.is_empty()
    }
}
