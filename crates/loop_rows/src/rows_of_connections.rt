//! The worked rows of connections. The functions do nothing.
ghost use Rattle.std.specs.Prelude.{◌≡◌, ◌<◌, ◌≤◌, ◌∷◌, [], ℕ, Some};
ghost use Rattle.connect_codec.specs.declared.answer.Outcome.{Outcome};
ghost use Rattle.gateway_model.specs.Events.{connections};
ghost use Rattle.gateway_theory.specs.Values.{GatewayValue};
ghost use Rattle.loop_model.specs.Clients.{ClientValue};
ghost use Rattle.gateway_model.specs.History.{History};
ghost use Rattle.loop_model.specs.Explained.{Explains, count_of, one_below};
ghost use Rattle.loop_rows.specs.LoopRows.{client_of, with_clients};

/// Of two connections that were opened one is that of a client who is there, and one of a client who is gone. Where
/// none was opened nobody is there.
fn connections_of_clients()
    ensures none { (v : GatewayValue) (c : ℕ) → count_of c (with_clients v [] []) ≡ one_below c 0 }
    ensures each { (v : GatewayValue) (c : ℕ) → count_of c (with_clients v (Some (client_of 1) ∷ []) (client_of 0 ∷ [])) ≡ one_below c 2 }
{}

/// No two clients have one connection, whether they are there or gone; each connection that was opened is some
/// client's; and no client has a number that is of none.
fn other_connections()
    ensures two_there { (u : Outcome) (h : History) (v : GatewayValue) (x y : ClientValue) → y.conn ≡ x.conn
        → Explains u h (with_clients v (Some x ∷ Some y ∷ []) []) → ⊥ }
    ensures two_gone { (u : Outcome) (h : History) (v : GatewayValue) (x y : ClientValue) → y.conn ≡ x.conn
        → Explains u h (with_clients v [] (x ∷ y ∷ [])) → ⊥ }
    ensures one_gone { (u : Outcome) (h : History) (v : GatewayValue) (x y : ClientValue) → y.conn ≡ x.conn
        → Explains u h (with_clients v (Some x ∷ []) (y ∷ [])) → ⊥ }
    ensures nobodys { (u : Outcome) (h : History) (v : GatewayValue) → Explains u h (with_clients v [] []) → 0 < connections h.opened h.events → ⊥ }
    ensures anothers { (u : Outcome) (h : History) (v : GatewayValue) (x : ClientValue) (c : ℕ) → (c ≡ x.conn → ⊥) → Explains u h (with_clients v (Some x ∷ []) [])
        → c < connections h.opened h.events → ⊥ }
    ensures unopened { (u : Outcome) (h : History) (v : GatewayValue) (x : ClientValue) → Explains u h (with_clients v [] (x ∷ []))
        → connections h.opened h.events ≤ x.conn → ⊥ }
{}
