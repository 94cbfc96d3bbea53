//! The worked rows of what a loop's network has done. The functions do nothing.
ghost use Rattle.std.specs.Prelude.{◌≡◌, ◌∷◌, [], ℕ, List, Option, Some, None, false, true};
ghost use Rattle.std.specs.declared.net.socket_addr.SocketAddr.{SocketAddr};
ghost use Rattle.connect_codec.specs.declared.answer.Outcome.{Outcome};
ghost use Rattle.gateway_model.specs.Job.{JobValue};
ghost use Rattle.gateway_theory.specs.Values.{GatewayValue};
ghost use Rattle.loop_model.specs.Accounts.{AccountsFor};
ghost use Rattle.loop_model.specs.Found.{Asked, Found, found_value};
ghost use Rattle.loop_model.specs.Streams.{closed_turns, closed_value, share_value};
ghost use Rattle.loop_model.specs.declared.manner.Manner.{Manner};
ghost use Rattle.loop_rows.specs.LoopRows.{account, account_of, asked, asks, client_of, client_with, ended, kept_for, loop_of, loop_that_waits, network, network_asked, new_stream, talk, with_ends, with_gone, with_kept};
ghost use Rattle.wires.specs.Turns.{Turn, Went};

/// A stream that was made is that of a job; once that has ended it is closed, or waits to be, or is kept; a stream that
/// was given up is closed, and so is a client's.
fn streams_of_a_loop()
    ensures none { (m : Manner) (v : GatewayValue) → AccountsFor (account 0) (network [] []) (loop_of m v [] [] [] []) }
    ensures made { (a : SocketAddr) (m : Manner) (v : GatewayValue) (j : JobValue) (got : List ℕ)
        → AccountsFor (account 0) (network (a ∷ []) []) (asks m v (asked a j [] (Went got ∷ []))) }
    ensures given_up { (a b : SocketAddr) (m : Manner) (v : GatewayValue) (j : JobValue)
        → AccountsFor (account 0) (network (a ∷ b ∷ []) (closed_value (Some a) [] [] ∷ [])) (asks m v (asked b j (new_stream a [] ∷ []) [])) }
    ensures closed { (a : SocketAddr) (m : Manner) (v : GatewayValue) (j : JobValue) (given got : List ℕ) (o : Option Outcome)
        → AccountsFor (account 0) (network (a ∷ []) (closed_turns (Some a) (talk got given) ∷ [])) (with_ends m v (ended a j [] (talk got given) o ∷ []) []) }
    ensures waits { (a : SocketAddr) (m : Manner) (v : GatewayValue) (j : JobValue) (given got : List ℕ) (o : Option Outcome)
        → AccountsFor (account 0) (network (a ∷ []) []) (with_ends m v (ended a j [] (talk got given) o ∷ []) (closed_turns (Some a) (talk got given) ∷ [])) }
    ensures client { (m : Manner) (v : GatewayValue) (given got : List ℕ)
        → AccountsFor (account 2) (network [] (closed_value None given got ∷ []))
        (with_gone m v (Some (client_of 0) ∷ []) (client_with 1 false given got true [] ∷ [])) }
    ensures kept { (a : SocketAddr) (m : Manner) (v : GatewayValue) (j : JobValue) (turns : List Turn) (o : Option Outcome)
        → AccountsFor (account 0) (network (a ∷ []) [])
        (with_kept m v (ended a j [] turns o ∷ []) (kept_for j.address a (share_value j turns o ∷ []) [] ∷ [])) }
{}

/// No stream is out of sight: none is made that is no job's, or to another address than its job says; none is kept that
/// was never made; none is dropped unclosed, or closed twice; no byte more goes over one that was left; and no stream
/// that was dealt is lost.
fn streams_out_of_sight()
    ensures nobodys { (a : SocketAddr) (m : Manner) (v : GatewayValue) → AccountsFor (account 0) (network (a ∷ []) []) (loop_of m v [] [] [] []) → ⊥ }
    ensures unmade { (a : SocketAddr) (m : Manner) (v : GatewayValue) (j : JobValue)
        → AccountsFor (account 0) (network [] []) (asks m v (asked a j [] [])) → ⊥ }
    ensures unclosed { (a : SocketAddr) (m : Manner) (v : GatewayValue) (j : JobValue) (o : Option Outcome)
        → AccountsFor (account 0) (network (a ∷ []) []) (with_ends m v (ended a j [] [] o ∷ []) []) → ⊥ }
    ensures twice { (a : SocketAddr) (m : Manner) (v : GatewayValue) (j : JobValue) (o : Option Outcome)
        → AccountsFor (account 0) (network (a ∷ []) (closed_value (Some a) [] [] ∷ []))
        (with_ends m v (ended a j [] [] o ∷ []) (closed_value (Some a) [] [] ∷ [])) → ⊥ }
    ensures given_up { (a b : SocketAddr) (m : Manner) (v : GatewayValue) (j : JobValue)
        → AccountsFor (account 0) (network (a ∷ b ∷ []) []) (asks m v (asked b j (new_stream a [] ∷ []) [])) → ⊥ }
    ensures client { (m : Manner) (v : GatewayValue) → AccountsFor (account 1) (network [] []) (with_gone m v [] (client_of 0 ∷ [])) → ⊥ }
    ensures dealt { (m : Manner) (v : GatewayValue) → AccountsFor (account 1) (network [] []) (loop_of m v [] [] [] []) → ⊥ }
    ensures written { (a : SocketAddr) (m : Manner) (v : GatewayValue) (j : JobValue) (o : Option Outcome) (byte : ℕ)
        → AccountsFor (account 0) (network (a ∷ []) (closed_value (Some a) [] (byte ∷ []) ∷ [])) (with_ends m v (ended a j [] [] o ∷ []) []) → ⊥ }
    ensures kept { (a : SocketAddr) (m : Manner) (v : GatewayValue) (j : JobValue) (turns : List Turn) (o : Option Outcome)
        → AccountsFor (account 0) (network [] []) (with_kept m v (ended a j [] turns o ∷ []) (kept_for j.address a (share_value j turns o ∷ []) [] ∷ [])) → ⊥ }
{}

/// A loop waits for a name that its network took to look up, and for which nothing was found since; and for no other.
fn names_of_a_loop()
    ensures asked { (m : Manner) (v : GatewayValue) (name : List ℕ)
        → AccountsFor (account_of (Asked name ∷ [])) (network_asked (name ∷ [])) (loop_that_waits m v [] [] (name ∷ [])) }
    ensures found { (m : Manner) (v : GatewayValue) (name : List ℕ) (a : SocketAddr)
        → AccountsFor (account_of (Asked name ∷ Found (found_value name (a ∷ [])) ∷ [])) (network_asked (name ∷ []))
        (loop_that_waits m v [] (found_value name (a ∷ []) ∷ []) []) }
    ensures unasked { (m : Manner) (v : GatewayValue) (name : List ℕ) → AccountsFor (account 0) (network [] []) (loop_that_waits m v [] [] (name ∷ [])) → ⊥ }
    ensures untold { (m : Manner) (v : GatewayValue) (name : List ℕ) → AccountsFor (account 0) (network_asked (name ∷ [])) (loop_that_waits m v [] [] []) → ⊥ }
    ensures untaken { (m : Manner) (v : GatewayValue) (name : List ℕ)
        → AccountsFor (account_of (Asked name ∷ [])) (network [] []) (loop_that_waits m v [] [] (name ∷ [])) → ⊥ }
    ensures stale { (m : Manner) (v : GatewayValue) (name : List ℕ) (a : SocketAddr)
        → AccountsFor (account_of (Asked name ∷ Found (found_value name (a ∷ [])) ∷ [])) (network_asked (name ∷ []))
        (loop_that_waits m v [] (found_value name (a ∷ []) ∷ []) (name ∷ [])) → ⊥ }
{}
