//! The worked row: what the definitions give for it. The functions do nothing.
ghost use Rattle.std.specs.Prelude.{◌≡◌, ◌∷◌, [], true, false, None, Some, Ok, Err};
ghost use Rattle.err_group.specs.GroupState.{has_room, is_idle, freed_by};
ghost use Rattle.err_group.specs.Group.{SetLimit, Done, ClearQueue, after};
ghost use Rattle.context_rows.specs.GroupRows.{two_active, third_waits, all_finished, never_starts};

/// Two tasks start and a third waits. It starts at the first finish; of two errors the first is kept.
#[tactic(auto, unfolding(err_group::specs::Group::group_of))]
fn two_at_a_time()
    ensures room { has_room (after two_active) ≡ false }
    ensures waits { after third_waits ≡ record { active = 2; limit = 2; queue = 12 ∷ []; first_error = None } }
    ensures next { freed_by (Ok tt) (after third_waits) ≡ record { next = Some 12; first = false } }
    ensures first { freed_by (Err 70) (after (Done (Ok tt) ∷ third_waits)) ≡ record { next = None; first = true } }
    ensures second { freed_by (Err 80) (after (Done (Err 70) ∷ Done (Ok tt) ∷ third_waits))
        ≡ record { next = None; first = false } }
    ensures end { after all_finished ≡ record { active = 0; limit = 2; queue = []; first_error = Some 70 } }
    ensures no_more { freed_by (Ok tt) (after all_finished) ≡ record { next = None; first = false } }
    ensures unchanged { after (Done (Err 90) ∷ all_finished) ≡ after all_finished }
{}

/// With limit 0 a task waits until it is cleared.
#[tactic(auto, unfolding(err_group::specs::Group::group_of))]
fn limit_zero()
    ensures waits { after never_starts ≡ record { active = 0; limit = 0; queue = 10 ∷ []; first_error = None } }
    ensures cleared { after (SetLimit None ∷ ClearQueue ∷ never_starts)
        ≡ record { active = 0; limit = 4294967295; queue = []; first_error = None } }
    ensures idle { is_idle (after (ClearQueue ∷ never_starts)) ≡ true }
{}
