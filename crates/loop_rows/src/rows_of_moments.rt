//! The worked rows of moments. The functions do nothing.
ghost use Rattle.std.specs.Prelude.{◌≡◌, ◌∷◌, [], ℕ};
ghost use Rattle.gateway_model.specs.declared.event.Event.TheVariants.{Drain, Moment, Opening};
ghost use Rattle.loop_model.specs.Handed.{HandsIn, latest, moments};

/// A clock told 5, 5, 3 and 9: the second 5 and the 3 change nothing, and may be left out.
fn moments_of_a_clock()
    ensures each { HandsIn (9 ∷ 3 ∷ 5 ∷ 5 ∷ []) (9 ∷ 5 ∷ []) }
    ensures twice { HandsIn (9 ∷ 3 ∷ 5 ∷ 5 ∷ []) (9 ∷ 5 ∷ 5 ∷ []) }
    ensures latest { latest (3 ∷ 9 ∷ 5 ∷ []) ≡ 9 }
    ensures among { moments (Moment 9 ∷ Drain ∷ Moment 5 ∷ Opening ∷ []) ≡ 9 ∷ 5 ∷ [] }
{}

/// A later moment may not be left out, none may be made up, and they are handed in as they were told.
fn other_moments()
    ensures skipped { HandsIn (9 ∷ 5 ∷ []) (5 ∷ []) → ⊥ }
    ensures made_up { HandsIn (5 ∷ []) (7 ∷ []) → ⊥ }
    ensures too_many { HandsIn (5 ∷ []) (5 ∷ 5 ∷ []) → ⊥ }
{}
