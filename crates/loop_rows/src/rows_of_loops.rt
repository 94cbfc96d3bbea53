//! The worked rows of a loop's jobs. The functions do nothing.
ghost use Rattle.std.specs.Prelude.{◌≡◌, ◌∷◌, ◌++◌, [], ℕ, All, List, codes, Option, Some, None, option_to_list};
ghost use Rattle.connect_codec.specs.declared.answer.Outcome.{Outcome};
ghost use Rattle.gateway_model.specs.Job.{JobValue};
ghost use Rattle.std.specs.Net.Grammar.{IsSocketText};
ghost use Rattle.std.specs.declared.net.socket_addr.SocketAddr.{SocketAddr};
ghost use Rattle.gateway_theory.specs.Values.{GatewayValue};
ghost use Rattle.http_pieces.specs.declared.framing.Framing.{Framing};
ghost use Rattle.http_pieces.specs.declared.framing.Framing.TheVariants as framings;
ghost use Rattle.loop_model.specs.Asking.{AskingValue, EndedValue, IsFair};
ghost use Rattle.loop_model.specs.Histories.{GoesOn};
ghost use Rattle.loop_model.specs.Streams.{IsNew};
ghost use Rattle.loop_model.specs.Whole.{AsksFairly, ContinuesLoop};
ghost use Rattle.loop_model.specs.declared.manner.Manner.{Manner};
ghost use Rattle.loop_rows.specs.LoopRows.{asked, asked_at_peer, asking, asks, ended, job, keeping, loop_of, new_stream, without_keeping};
ghost use Rattle.wires.specs.Turns.{Turn, Went};

/// A job that was taken is asked for, or has ended, and then its result was handed in.
fn jobs_of_a_loop()
    ensures asked { (m : Manner) (v : GatewayValue) (j : JobValue) → AsksFairly (loop_of m v [] (j ∷ []) (None ∷ Some (asking j) ∷ []) []) }
    ensures over { (m : Manner) (v : GatewayValue) (e : EndedValue) → IsFair m e → All IsNew (option_to_list e.asking.stream) → e.asking.found ≡ []
        → AsksFairly (loop_of m v ((e.asking.job, e.outcome) ∷ []) (e.asking.job ∷ []) (None ∷ []) (e ∷ [])) }
{}

/// None is dropped, asked for untaken or by another request, or recorded without an end, twice, never, or
/// for another job; and what ended stays.
fn other_jobs()
    ensures dropped { (m : Manner) (v : GatewayValue) (j : JobValue) → AsksFairly (loop_of m v [] (j ∷ []) (None ∷ []) []) → ⊥ }
    ensures untaken { (m : Manner) (v : GatewayValue) (j : JobValue) → AsksFairly (loop_of m v [] [] (Some (asking j) ∷ []) []) → ⊥ }
    ensures twice { (m : Manner) (v : GatewayValue) (e : EndedValue)
        → AsksFairly (loop_of m v ((e.asking.job, e.outcome) ∷ (e.asking.job, e.outcome) ∷ []) (e.asking.job ∷ []) [] (e ∷ [])) → ⊥ }
    ensures never { (m : Manner) (v : GatewayValue) (e : EndedValue) → AsksFairly (loop_of m v [] (e.asking.job ∷ []) [] (e ∷ [])) → ⊥ }
    ensures another { (a : SocketAddr) (m : Manner) (v : GatewayValue) (o : Option Outcome)
        → AsksFairly (loop_of m v ((job 0 1 5, o) ∷ []) (job 0 1 2 ∷ []) [] (ended a (job 0 1 2) [] [] o ∷ [])) → ⊥ }
    ensures otherwise { (a : SocketAddr) (m : Manner) (v : GatewayValue) (j : JobValue) (o : Outcome)
        → AsksFairly (loop_of m v ((j, Some o) ∷ []) (j ∷ []) [] (ended a j [] [] None ∷ [])) → ⊥ }
    ensures request { (a : SocketAddr) (m : Manner) (v : GatewayValue) (j : JobValue) → AsksFairly (asks m v (asked a j [] (Went (codes "GET") ∷ []))) → ⊥ }
    ensures anew { (m : Manner) (v : GatewayValue) (e : EndedValue)
        → ContinuesLoop (loop_of m v ((e.asking.job, e.outcome) ∷ []) (e.asking.job ∷ []) [] (e ∷ [])) (loop_of m v [] [] [] []) → ⊥ }
{}

/// None is asked for at an address that is not its own, or at its second one first.
fn other_addresses()
    ensures elsewhere { (m : Manner) (v : GatewayValue) (j : JobValue) (b : SocketAddr) → (IsSocketText j.address b → ⊥)
        → AsksFairly (asks m v (asked_at_peer b [] j)) → ⊥ }
    ensures order { (m : Manner) (v : GatewayValue) (j : JobValue) (a b : SocketAddr) → (IsSocketText j.address b → ⊥) → (b ≡ a → ⊥)
        → AsksFairly (asks m v (asked_at_peer b (a ∷ b ∷ []) j)) → ⊥ }
{}

/// A job that is asked for goes on with more, over its stream or another, or ends with more, where the history goes on.
fn jobs_that_go_on()
    ensures more { (a : SocketAddr) (m : Manner) (v : GatewayValue) (j : JobValue) (turns more : List Turn)
        → ContinuesLoop (asks m v (asked a j [] turns)) (asks m v (asked a j [] (turns ++ more))) }
    ensures another { (a : SocketAddr) (m : Manner) (v : GatewayValue) (j : JobValue) (got : List ℕ)
        → ContinuesLoop (asks m v (asking j)) (asks m v (asked a j (new_stream a [] ∷ []) (Went got ∷ []))) }
    ensures over { (a : SocketAddr) (m : Manner) (v : GatewayValue) (j : JobValue) (turns more : List Turn) (o : Option Outcome)
        → GoesOn (asks m v (asked a j [] turns)).side (loop_of m v ((j, o) ∷ []) (j ∷ []) [] []).side
        → ContinuesLoop (asks m v (asked a j [] turns)) (loop_of m v ((j, o) ∷ []) (j ∷ []) (None ∷ []) (ended a j [] (turns ++ more) o ∷ [])) }
{}

/// What was read or written for it is not forgotten, no other takes its place, and neither it nor its stream is
/// dropped unseen. Nor are chunks taken, or streams kept, from some moment on.
fn jobs_that_are_lost()
    ensures forgotten { (a : SocketAddr) (m : Manner) (v : GatewayValue) (j : JobValue)
        → ContinuesLoop (asks m v (asked a j [] (Went (codes "P") ∷ []))) (asks m v (asking j)) → ⊥ }
    ensures another { (m : Manner) (v : GatewayValue) → ContinuesLoop (asks m v (asking (job 0 1 2))) (asks m v (asking (job 0 1 3))) → ⊥ }
    ensures unseen { (a b : SocketAddr) (m : Manner) (v : GatewayValue) (j : JobValue) → (b ≡ a → ⊥)
        → ContinuesLoop (asks m v (asked a j [] [])) (asks m v (asked_at_peer b (a ∷ b ∷ []) j)) → ⊥ }
    ensures dropped { (m : Manner) (v : GatewayValue) (j : JobValue) → ContinuesLoop (asks m v (asking j)) (loop_of m v [] (j ∷ []) (None ∷ []) []) → ⊥ }
    ensures in_chunks { (v : GatewayValue) (x : AskingValue)
        → ContinuesLoop (asks (without_keeping framings.Fixed) v x) (asks (without_keeping framings.Any) v x) → ⊥ }
    ensures keeping { (f : Framing) (v : GatewayValue) (x : AskingValue) → ContinuesLoop (asks (without_keeping f) v x) (asks (keeping f) v x) → ⊥ }
{}
