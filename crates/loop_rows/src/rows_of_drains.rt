//! The worked rows of the drain. The functions do nothing.
ghost use Rattle.std.specs.Prelude.{◌≡◌, ◌∷◌, [], List, Option, true, false};
ghost use Rattle.connect_codec.specs.declared.answer.Outcome.{Outcome};
ghost use Rattle.gateway_model.specs.declared.event.Event.TheVariants.{Drain, Moment, Opening};
ghost use Rattle.gateway_theory.specs.Values.{GatewayValue};
ghost use Rattle.loop_model.specs.Clients.{ClientValue};
ghost use Rattle.gateway_model.specs.History.{History};
ghost use Rattle.loop_model.specs.Explained.{Explains};
ghost use Rattle.loop_model.specs.Handed.{has_drained};
ghost use Rattle.loop_rows.specs.LoopRows.{with_clients};

/// The drain is among the events, whatever came before and since.
fn drains_among_events()
    ensures among { has_drained (Moment 9 ∷ Drain ∷ Opening ∷ []) ≡ true }
    ensures none { has_drained (Moment 9 ∷ Opening ∷ []) ≡ false }
{}

/// No loop drains that was not told to, or does not that was.
fn other_drains()
    ensures untold { (u : Outcome) (h : History) (v : GatewayValue) (clients : List (Option ClientValue)) (gone : List ClientValue)
        → Explains u h (with_clients v clients gone) → has_drained h.events ≡ true → ⊥ }
    ensures undone { (u : Outcome) (h : History) (v : GatewayValue) (clients : List (Option ClientValue)) (gone : List ClientValue)
        → Explains u h (record (with_clients v clients gone) { drained = true }) → has_drained h.events ≡ false → ⊥ }
{}
