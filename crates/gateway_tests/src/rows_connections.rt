//! The worked rows of connections: what the definitions give for them. The functions do nothing.
ghost use Rattle.std.specs.Prelude.{◌≡◌, ◌∷◌, ◌++◌, [], codes, false, true, replicate};
ghost use Rattle.std.specs.List.{range_with_len};
ghost use Rattle.gateway_model.specs.declared.event.Event.TheVariants.{Closing, HangUp, Opening, Piece};
ghost use Rattle.gateway_model.specs.Events.{OpensAt, connections, has_no_effect, is_open, open_connections, stream};

/// With 64 connections open no more is opened; when one was closed, the next has a number of its own.
fn connections_full()
    ensures full { open_connections (range_with_len 0 64) (replicate 64 Opening) ≡ 64 }
    ensures room { open_connections (range_with_len 0 64) (Closing 5 ∷ Opening ∷ replicate 64 Opening) ≡ 63 }
    ensures opened { connections (range_with_len 0 64 ++ 66 ∷ []) (Opening ∷ Closing 5 ∷ Opening ∷ replicate 64 Opening) ≡ 65 }
    ensures number { is_open (range_with_len 0 64 ++ 66 ∷ []) 64 (Opening ∷ Closing 5 ∷ Opening ∷ replicate 64 Opening) ≡ true }
    ensures closed { is_open (range_with_len 0 64 ++ 66 ∷ []) 5 (Opening ∷ Closing 5 ∷ Opening ∷ replicate 64 Opening) ≡ false }
{}

/// An opening beside 63 open connections can succeed, and one beside 64 can't.
fn most_connections()
    ensures one_more { OpensAt (range_with_len 0 64) (replicate 64 Opening) 63 }
    ensures no_more { OpensAt (range_with_len 0 65) (replicate 65 Opening) 64 → ⊥ }
{}

/// A stream is the pieces of its connection alone, from its opening on, and none after its hang-up or its closing.
fn stream_of_a_connection()
    ensures own { stream (0 ∷ 1 ∷ []) 0 (Piece 0 (codes "c") ∷ Piece 1 (codes "b") ∷ Piece 0 (codes "a") ∷ Opening ∷ Opening ∷ []) ≡ codes "ac" }
    ensures opened { stream (1 ∷ []) 0 (Piece 0 (codes "b") ∷ Opening ∷ Piece 0 (codes "a") ∷ []) ≡ codes "b" }
    ensures hung_up { stream (0 ∷ []) 0 (Piece 0 (codes "b") ∷ HangUp 0 ∷ Piece 0 (codes "a") ∷ Opening ∷ []) ≡ codes "a" }
    ensures closed { stream (0 ∷ []) 0 (Piece 0 (codes "b") ∷ Closing 0 ∷ Piece 0 (codes "a") ∷ Opening ∷ []) ≡ codes "a" }
    ensures other { stream (0 ∷ 1 ∷ []) 0 (Piece 0 (codes "b") ∷ Closing 1 ∷ HangUp 1 ∷ Piece 0 (codes "a") ∷ Opening ∷ Opening ∷ []) ≡ codes "ab" }
{}

/// A second hang-up or closing has no effect, nor has what names a connection that was never opened.
fn events_of_no_effect()
    ensures first { has_no_effect (0 ∷ []) (HangUp 0) (Opening ∷ []) ≡ false }
    ensures hung_up { has_no_effect (0 ∷ []) (HangUp 0) (HangUp 0 ∷ Opening ∷ []) ≡ true }
    ensures closes { has_no_effect (0 ∷ []) (Closing 0) (HangUp 0 ∷ Opening ∷ []) ≡ false }
    ensures closed { has_no_effect (0 ∷ []) (Closing 0) (Closing 0 ∷ Opening ∷ []) ≡ true }
    ensures unknown { has_no_effect (0 ∷ []) (HangUp 1) (Opening ∷ []) ≡ true }
    ensures refused { has_no_effect (0 ∷ []) Opening (Opening ∷ []) ≡ true }
{}
