//! The worked rows of reports. The functions do nothing.
ghost use Rattle.std.specs.Prelude.{◌≡◌, ◌∷◌, [], ℕ, List, None, Option, Some};
ghost use Rattle.gateway_theory.specs.Values.{GatewayValue};
ghost use Rattle.loop_model.specs.Asking.{AskingValue};
ghost use Rattle.loop_model.specs.Clients.{ClientValue};
ghost use Rattle.loop_model.specs.Reports.{tell, tell_all, told_asking, told_client};
ghost use Rattle.loop_model.specs.Whole.{ContinuesLoop};
ghost use Rattle.loop_model.specs.declared.manner.Manner.{Manner};
ghost use Rattle.loop_rows.specs.LoopRows.{asked, client_of, loop_with, readable};
ghost use Rattle.gateway_model.specs.Job.{JobValue};
ghost use Rattle.std.specs.declared.net.socket_addr.SocketAddr.{SocketAddr};

/// A report is told to the client or the job of its token, and to no other; a token may name nobody.
fn reports_that_are_told()
    ensures client { (m : Manner) (v : GatewayValue) (x y : ClientValue) → tell (readable 2) (loop_with m v (Some x ∷ Some y ∷ []) [])
        ≡ loop_with m v (Some x ∷ Some (told_client (readable 2) y) ∷ []) [] }
    ensures job { (m : Manner) (v : GatewayValue) (x : ClientValue) (j : AskingValue) → tell (readable 1) (loop_with m v (Some x ∷ []) (Some j ∷ []))
        ≡ loop_with m v (Some x ∷ []) (Some (told_asking (readable 1) j) ∷ []) }
    ensures nobody { (m : Manner) (v : GatewayValue) (x : ClientValue)
        → tell (readable 4) (loop_with m v (Some x ∷ None ∷ []) []) ≡ loop_with m v (Some x ∷ None ∷ []) [] }
    ensures each { (m : Manner) (v : GatewayValue) (x : ClientValue) (j : AskingValue)
        → tell_all (readable 0 ∷ readable 1 ∷ []) (loop_with m v (Some x ∷ []) (Some j ∷ []))
        ≡ loop_with m v (Some (told_client (readable 0) x) ∷ []) (Some (told_asking (readable 1) j) ∷ []) }
{}

/// No report is lost.
fn reports_that_are_lost()
    ensures lost { (m : Manner) (v : GatewayValue)
        → ContinuesLoop (tell (readable 0) (loop_with m v (Some (client_of 0) ∷ []) [])) (loop_with m v (Some (client_of 0) ∷ []) []) → ⊥ }
    ensures of_a_job { (a : SocketAddr) (m : Manner) (v : GatewayValue) (j : JobValue)
        → ContinuesLoop (tell (readable 1) (loop_with m v [] (Some (asked a j [] []) ∷ []))) (loop_with m v [] (Some (asked a j [] []) ∷ [])) → ⊥ }
{}
