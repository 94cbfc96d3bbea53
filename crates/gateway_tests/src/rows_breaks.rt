//! The worked rows of connections that break in the middle of a piece: what the definitions give for them. The
//! functions do nothing.
ghost use Rattle.std.specs.Prelude.{◌≡◌, ◌∷◌, [], codes, length, true, None};
ghost use Rattle.gateway_model.specs.declared.seen.Seen.{Seen};
ghost use Rattle.gateway_model.specs.Occurrence.{Opening, HangUp, Moment, Drain, Break};
ghost use Rattle.gateway_model.specs.Past.{arrivals, call_id, how_seen, is_broken, outs, past_of};
ghost use Rattle.gateway_theory.specs.Replies.{replies};
ghost use Rattle.gateway_tests.specs.Rows.{row_starts, starts_then, ping, quote, asks, asks_on, answers, gets, succeeded};

/// Of a piece with three requests the second finds no memory: the first is answered, and the others never come.
fn break_between_requests()
    ensures answered { replies 0 (past_of (Opening ∷ gets 0 ∷ Break 0 ∷ gets 1 ∷ gets 2 ∷ []))
        ≡ replies 0 (past_of (Opening ∷ gets 0 ∷ [])) }
    ensures one { length (replies 0 (past_of (Opening ∷ gets 0 ∷ Break 0 ∷ gets 1 ∷ gets 2 ∷ []))) ≡ 1 }
    ensures others { arrivals 0 (past_of (Opening ∷ gets 0 ∷ Break 0 ∷ gets 1 ∷ gets 2 ∷ [])) ≡ 1 }
    ensures whole { length (replies 0 (past_of (Opening ∷ gets 0 ∷ gets 1 ∷ gets 2 ∷ []))) ≡ 3 }
    ensures broken { is_broken 0 (past_of (Opening ∷ gets 0 ∷ Break 0 ∷ gets 1 ∷ gets 2 ∷ [])) ≡ true }
{}

/// Between two calls of one piece: the branch of the first stays out and its result is late, and the second never
/// begins. Another connection's call goes on.
fn break_between_calls()
    ensures late { how_seen (call_id 0 0) 0 (past_of (Opening ∷ Opening ∷ asks ping None 0 ∷ Break 0 ∷ asks ping None 1 ∷ asks_on 1 ping None None 0 ∷ []))
        ≡ Seen.Late }
    ensures never { how_seen (call_id 0 1) 0 (past_of (Opening ∷ Opening ∷ asks ping None 0 ∷ Break 0 ∷ asks ping None 1 ∷ asks_on 1 ping None None 0 ∷ []))
        ≡ Seen.Unknown }
    ensures other { how_seen (call_id 1 0) 0 (past_of (Opening ∷ Opening ∷ asks ping None 0 ∷ Break 0 ∷ asks ping None 1 ∷ asks_on 1 ping None None 0 ∷ []))
        ≡ Seen.Counted }
    ensures out { outs (call_id 0 0) (past_of (Opening ∷ asks ping None 0 ∷ Break 0 ∷ asks ping None 1 ∷ [])) ≡ 1 }
    ensures back { outs (call_id 0 0) (past_of (Opening ∷ asks ping None 0 ∷ Break 0 ∷ asks ping None 1 ∷ answers 0 0 (codes "1") ∷ [])) ≡ 0 }
    ensures starts { row_starts (Opening ∷ asks ping None 0 ∷ Break 0 ∷ asks ping None 1 ∷ answers 0 0 (codes "1") ∷ [])
        ≡ starts_then ping 1 0 0 ∷ [] }
{}

/// Behind a call whose branches are out: no branch starts any more, and neither a result, a moment, the hang-up nor
/// the drain decides the call. What was answered before stays queued.
fn break_behind_a_call()
    ensures starts { row_starts (Opening ∷ asks quote None 0 ∷ Break 0 ∷ answers 0 1 (codes "2") ∷ [])
        ≡ starts_then quote 1 0 0 ∷ starts_then quote 1 0 1 ∷ [] }
    ensures undecided { replies 0 (past_of (Opening ∷ asks quote None 0 ∷ Break 0 ∷ answers 0 1 (codes "2") ∷ Moment 6000 ∷ HangUp 0 ∷ Drain ∷ [])) ≡ [] }
    ensures queued { replies 0 (past_of (Opening ∷ asks ping None 0 ∷ answers 0 0 (codes "1") ∷ asks ping None 1 ∷ Break 0 ∷ answers 1 0 (codes "2") ∷ []))
        ≡ succeeded (codes "{\"pong\":1}") ∷ [] }
    ensures unbroken { replies 0 (past_of (Opening ∷ asks ping None 0 ∷ answers 0 0 (codes "1") ∷ asks ping None 1 ∷ Break 1 ∷ answers 1 0 (codes "2") ∷ []))
        ≡ succeeded (codes "{\"pong\":1}") ∷ succeeded (codes "{\"pong\":2}") ∷ [] }
{}
