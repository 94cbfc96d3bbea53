//! The worked rows of clients. The functions do nothing.
ghost use Rattle.std.specs.Prelude.{◌≡◌, ◌∷◌, ◌++◌, [], ℕ, List, codes, true, false};
ghost use Rattle.call_plan.specs.Plan.{PlanRecord};
ghost use Rattle.gateway_model.specs.History.{History};
ghost use Rattle.gateway_model.specs.declared.event.Event.TheVariants.{Closing, HangUp, Opening, Piece};
ghost use Rattle.loop_model.specs.Clients.{IsExplainedClient};
ghost use Rattle.loop_rows.specs.LoopRows.{Queues, after, client_with, IsAt};

/// Two pieces were read, and fed: once each, whole, in order, and to its own connection.
fn pieces_of_a_client()
    ensures two { (plans : List PlanRecord)
        → IsExplainedClient plans (after (Piece 0 (codes "b") ∷ Piece 0 (codes "a") ∷ [])) (client_with 0 false (codes "ab") [] false []) }
    ensures twice { (plans : List PlanRecord)
        → IsExplainedClient plans (after (Piece 0 (codes "a") ∷ Piece 0 (codes "a") ∷ [])) (client_with 0 false (codes "a") [] false []) → ⊥ }
    ensures short { (plans : List PlanRecord) → IsExplainedClient plans (after (Piece 0 (codes "a") ∷ [])) (client_with 0 false (codes "ab") [] false []) → ⊥ }
    ensures order { (plans : List PlanRecord)
        → IsExplainedClient plans (after (Piece 0 (codes "a") ∷ Piece 0 (codes "b") ∷ [])) (client_with 0 false (codes "ab") [] false []) → ⊥ }
    ensures another { (plans : List PlanRecord) → IsExplainedClient plans (after (Piece 1 (codes "a") ∷ [])) (client_with 0 false (codes "a") [] false []) → ⊥ }
{}

/// It hung up exactly if a read found its end; what came of one that lingers was dropped.
fn ends_of_a_client()
    ensures ended { (plans : List PlanRecord) → IsExplainedClient plans (after (HangUp 0 ∷ [])) (client_with 0 false [] [] true []) }
    ensures untold { (plans : List PlanRecord) → IsExplainedClient plans (after []) (client_with 0 false [] [] true []) → ⊥ }
    ensures made_up { (plans : List PlanRecord) → IsExplainedClient plans (after (HangUp 0 ∷ [])) (client_with 0 false [] [] false []) → ⊥ }
    ensures lingers { (plans : List PlanRecord)
        → IsExplainedClient plans (after (Closing 0 ∷ Piece 0 (codes "a") ∷ [])) (client_with 0 true (codes "abc") [] true []) }
    ensures lost { (plans : List PlanRecord)
        → IsExplainedClient plans (after (Closing 0 ∷ Piece 0 (codes "ab") ∷ [])) (client_with 0 true (codes "a") [] false []) → ⊥ }
{}

/// What was written, and then what waits, begins what is queued: by whatever history queues these bytes for it.
fn replies_of_a_client()
    ensures whole { (plans : List PlanRecord) (reply : List ℕ) (h : History) → Queues plans h 0 reply → IsAt h 0 [] false
        → IsExplainedClient plans h (client_with 0 false [] reply false []) }
    ensures waits { (plans : List PlanRecord) (front rest more : List ℕ) (h : History) → Queues plans h 0 (front ++ rest ++ more) → IsAt h 0 [] false
        → IsExplainedClient plans h (client_with 0 false [] front false rest) }
    ensures twice { (plans : List PlanRecord) (h : History) → Queues plans h 0 (codes "ok") → IsExplainedClient plans h (client_with 0 false [] (codes "okok") false []) → ⊥ }
    ensures cut { (plans : List PlanRecord) (h : History) → Queues plans h 0 (codes "ok") → IsExplainedClient plans h (client_with 0 false [] (codes "k") false []) → ⊥ }
    ensures nothing { (plans : List PlanRecord) → IsExplainedClient plans (after []) (client_with 0 false [] (codes "x") false []) → ⊥ }
{}
