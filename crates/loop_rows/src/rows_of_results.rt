//! The worked rows of results. The functions do nothing.
ghost use Rattle.std.specs.Prelude.{◌≡◌, ◌∷◌, [], codes, Some, None};
ghost use Rattle.connect_codec.specs.declared.answer.Outcome.{Outcome};
ghost use Rattle.gateway_model.specs.declared.event.Event.TheVariants.{BranchResult, Drain};
ghost use Rattle.loop_model.specs.Handed.{IsResultOf, results};
ghost use Rattle.loop_rows.specs.LoopRows.{job, result_of};

/// The result of a job is that of its call and its branch, with what was recorded; where there was no memory for that,
/// whatever it was.
fn results_of_jobs()
    ensures own { (unknown : Outcome) → IsResultOf unknown (result_of 0 1 2 (Outcome.Answer (codes "{}"))) (job 0 1 2, Some (Outcome.Answer (codes "{}"))) }
    ensures any { (unknown : Outcome) → IsResultOf unknown (result_of 0 1 2 unknown) (job 0 1 2, None) }
    ensures made_up { (o : Outcome) → ((unknown : Outcome) → IsResultOf unknown (result_of 0 1 2 o) (job 0 1 2, None)) → ⊥ }
    ensures connection { (o : Outcome) → IsResultOf o (result_of 5 1 2 o) (job 0 1 2, None) → ⊥ }
    ensures request { (o : Outcome) → IsResultOf o (result_of 0 5 2 o) (job 0 1 2, None) → ⊥ }
    ensures branch { (o : Outcome) → IsResultOf o (result_of 0 1 5 o) (job 0 1 2, None) → ⊥ }
    ensures outcome { (unknown : Outcome)
        → IsResultOf unknown (result_of 0 1 2 (Outcome.Answer (codes "1"))) (job 0 1 2, Some (Outcome.Answer (codes "2"))) → ⊥ }
    ensures order { results (BranchResult 0 1 1 (Outcome.Answer []) ∷ Drain ∷ BranchResult 0 1 0 (Outcome.Answer []) ∷ [])
        ≡ result_of 0 1 0 (Outcome.Answer []) ∷ result_of 0 1 1 (Outcome.Answer []) ∷ [] }
{}
