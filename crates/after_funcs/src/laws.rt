//! What the definitions come to, as facts on every list of operations. The functions do nothing.
ghost use Rattle.std.specs.Prelude.{◌≡◌, ◌+◌, ◌++◌, ◌∷◌, List, Contains, count_by, AllPairs, ◌<◌, nat_lt, if◌then◌else◌, filter, map, not};
ghost use Rattle.std.specs.List.{list_any};
ghost use Rattle.context_tree.specs.declared.id.CtxId.{CtxId};
ghost use Rattle.after_funcs.specs.Hooks.{Operation, Fire, Stop, is_named, is_on, is_waiting, waiting, due, registered};
ghost use Rattle.after_funcs.specs.Whole.{called, stopped, became_due, HasWaitedSince};
ghost use Rattle.after_funcs.specs.declared.id.AfterId.{AfterId as Id};
ghost use Rattle.after_funcs.specs.declared.registration.Registration.{Registration as Registered};

/// A hook waits from its registration until a fire of its context or its stop.
pub fn waiting_law<H>()
    ensures since { (past : List (Operation H)) (r : Registered H) → Contains (waiting past) r → HasWaitedSince r past }
    ensures only { (past : List (Operation H)) (r : Registered H) → HasWaitedSince r past → Contains (waiting past) r }
{}

/// After several fires the hooks wait that waited before and are on none of those contexts.
pub fn fires_law<H>()
    ensures { (past : List (Operation H)) (ended : List CtxId)
        → waiting (map Fire ended ++ past) ≡ filter (λ r. not (list_any (λ ctx. is_on ctx r) ended)) (waiting past) }
{}

/// Each hook that was registered has one place: it waits, is due, was called, or was stopped. So it is called once or
/// dropped uncalled, never both, and no two hooks have one number.
pub fn once_law<H>()
    ensures { (past : List (Operation H)) (id : Id) →
        count_by (is_named id) (waiting past) + count_by (is_named id) (due past) + count_by (is_named id) (called past) + count_by (is_named id) (stopped past)
        ≡ (if nat_lt id (registered past) then 1 else 0) }
{}

/// Hooks are called in the order in which they became due. Those that became due by one fire stand in the order of
/// registration, as the hooks that wait do.
pub fn order_law<H>()
    ensures called { (past : List (Operation H)) → called past ++ due past ≡ became_due past }
    ensures registered { (past : List (Operation H)) → AllPairs (λ r s. r.id < s.id) (waiting past) }
{}
