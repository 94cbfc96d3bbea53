//! What the definitions come to, as facts on every list of operations. The functions do nothing.
ghost use Rattle.std.specs.Prelude.{◌≡◌, ◌<◌, ◌≤◌, ◌↔◌, List, ◌∷◌, ◌++◌, map, length, Option, None, Some, IsSome, IsTrue, Result, option_to_list};
ghost use Rattle.err_group.specs.GroupState.{GroupState, freed_by};
ghost use Rattle.err_group.specs.Group.{Operation, Done, ClearQueue, starts_of, finishes_of, past_of, after, IsReached};
ghost use Rattle.err_group.specs.Fates.{Started, Removed, task_of, queued_of, fates_of};

/// Never more tasks are active than the limit says, and tasks wait only while as many are; so it is in each group that
/// exists. With limit 0 none is ever active. No more finishes count than tasks have started.
pub fn limit_law<T, E>()
    ensures within { (operations : List (Operation T E)) → (after operations).active ≤ (after operations).limit }
    ensures full { (operations : List (Operation T E)) → 0 < length (after operations).queue
        → (after operations).active ≡ (after operations).limit }
    ensures each_group { (g : GroupState T E) → IsReached g
        → (g.active ≤ g.limit) × (0 < length g.queue → g.active ≡ g.limit) }
    ensures zero { (operations : List (Operation T E)) → (after operations).limit ≡ 0 → (after operations).active ≡ 0 }
    ensures finishes { (operations : List (Operation T E))
        → finishes_of (past_of operations) ≤ starts_of (past_of operations) }
{}

/// What `go` queued leaves the queue in order, each task once: a finish starts it, which is what `done` answers, or
/// `clear_queue` removes it. The others wait.
pub fn queue_law<T, E>()
    ensures once { (operations : List (Operation T E))
        → map task_of (fates_of (past_of operations)) ++ (after operations).queue ≡ queued_of (past_of operations) }
    ensures started { (operations : List (Operation T E)) (outcome : Result (Unit {0}) E)
        → fates_of (past_of (Done outcome ∷ operations))
        ≡ fates_of (past_of operations) ++ map Started (option_to_list (freed_by outcome (after operations)).next) }
    ensures removed { (operations : List (Operation T E)) → fates_of (past_of (ClearQueue ∷ operations))
        ≡ fates_of (past_of operations) ++ map Removed (after operations).queue }
{}

/// The first error never changes, and `first` is true exactly where it comes.
pub fn first_error_law<T, E>()
    ensures stays { (later operations : List (Operation T E)) (error : E) → (after operations).first_error ≡ Some error
        → (after (later ++ operations)).first_error ≡ Some error }
    ensures first { (operations : List (Operation T E)) (outcome : Result (Unit {0}) E)
        → IsTrue (freed_by outcome (after operations)).first
        ↔ ((after operations).first_error ≡ None) × IsSome (after (Done outcome ∷ operations)).first_error }
{}
