//! The worked rows: what the definitions give for them. The functions do nothing.
ghost use Rattle.std.specs.Prelude.{◌≡◌, ℕ, ◌∷◌, [], ◌++◌, map, length, replicate, codes, true, false, None, Some};
ghost use Rattle.std.specs.List.{range_with_len};
ghost use Rattle.connect_codec.specs.Reply.{bare_reply, success_reply};
ghost use Rattle.gateway_model.specs.Reply.{reply_of};
ghost use Rattle.error_document.specs.declared.code.Code.{Code};
ghost use Rattle.gateway_model.specs.declared.seen.Seen.{Seen};
ghost use Rattle.http_pieces.specs.declared.refusal.Refusal.{Refusal};
ghost use Rattle.gateway_model.specs.Occurrence.{Opening, HangUp, Moment, Drain, Closing};
ghost use Rattle.gateway_model.specs.declared.call_event.CallEvent.TheVariants.{Answer as Answered, Expired, HungUp};
ghost use Rattle.gateway_model.specs.Past.{call_id, how_seen, marked, past_of};
ghost use Rattle.gateway_model.specs.Queue.{queued};
ghost use Rattle.gateway_theory.specs.Replies.{replies};
ghost use Rattle.gateway_model.specs.Record.{is_lawful, is_decided};
ghost use Rattle.gateway_tests.specs.Rows.{row_starts, starts_then, is_lawful_row, quote_record, ping, quote, asks, gets, after_gets, refuses, answers, fails, succeeded, failed, document, bytes_queued, flooded};

use gateway_theory::laws::{entry_law, unknown_law};

/// One call, answered.
fn ping_answered()
    ensures replies { replies 0 (past_of (Opening ∷ asks ping None 0 ∷ answers 0 0 (codes "{\"ok\":true}") ∷ []))
        ≡ succeeded (codes "{\"pong\":{\"ok\":true}}") ∷ [] }
    ensures starts { row_starts (Opening ∷ asks ping None 0 ∷ answers 0 0 (codes "{\"ok\":true}") ∷ [])
        ≡ starts_then ping 1 0 0 ∷ [] }
    ensures body { length (codes "{\"pong\":{\"ok\":true}}") ≡ 20 }
    ensures reply { success_reply (codes "{\"pong\":{\"ok\":true}}") false ≡ codes "HTTP/1.1 200 OK\r\nContent-Type: application/json\r\nContent-Length: 20\r\n\r\n{\"pong\":{\"ok\":true}}" }
    ensures bytes { bytes_queued (Opening ∷ asks ping None 0 ∷ answers 0 0 (codes "{\"ok\":true}") ∷ []) ≡ 91 }
{}

/// The backend is lost.
fn ping_lost()
    ensures replies { replies 0 (past_of (Opening ∷ asks ping None 0 ∷ fails 0 0 Code.Unavailable (codes "backend unreachable") ∷ []))
        ≡ failed Code.Unavailable (codes "pong: backend unreachable") ∷ [] }
    ensures body { document Code.Unavailable (codes "pong: backend unreachable") ≡ codes "{\"code\":\"unavailable\",\"message\":\"pong: backend unreachable\"}" }
    ensures body_bytes { length (document Code.Unavailable (codes "pong: backend unreachable")) ≡ 60 }
    ensures bytes { bytes_queued (Opening ∷ asks ping None 0 ∷ fails 0 0 Code.Unavailable (codes "backend unreachable") ∷ []) ≡ 148 }
{}

/// The answers are joined in declared order; the third branch starts at the first answer.
fn quote_joined()
    ensures replies { replies 0 (past_of (Opening ∷ asks quote None 0 ∷ answers 0 1 (codes "2") ∷ answers 0 0 (codes "1") ∷ answers 0 2 (codes "3") ∷ []))
        ≡ succeeded (codes "{\"flight\":1,\"hotel\":2,\"car\":3}") ∷ [] }
    ensures starts { row_starts (Opening ∷ asks quote None 0 ∷ answers 0 1 (codes "2") ∷ answers 0 0 (codes "1") ∷ answers 0 2 (codes "3") ∷ [])
        ≡ starts_then quote 1 0 0 ∷ starts_then quote 1 0 1 ∷ starts_then quote 2 0 2 ∷ [] }
    ensures body { length (codes "{\"flight\":1,\"hotel\":2,\"car\":3}") ≡ 30 }
    ensures bytes { bytes_queued (Opening ∷ asks quote None 0 ∷ answers 0 1 (codes "2") ∷ answers 0 0 (codes "1") ∷ answers 0 2 (codes "3") ∷ []) ≡ 101 }
{}

/// The first failure decides, and the third branch never starts.
fn quote_branch_fails()
    ensures replies { replies 0 (past_of (Opening ∷ asks quote None 0 ∷ fails 0 1 Code.ResourceExhausted (codes "sold out") ∷ answers 0 0 (codes "1") ∷ []))
        ≡ failed Code.ResourceExhausted (codes "hotel: sold out") ∷ [] }
    ensures starts { row_starts (Opening ∷ asks quote None 0 ∷ fails 0 1 Code.ResourceExhausted (codes "sold out") ∷ answers 0 0 (codes "1") ∷ [])
        ≡ starts_then quote 1 0 0 ∷ starts_then quote 1 0 1 ∷ [] }
    ensures body { document Code.ResourceExhausted (codes "hotel: sold out") ≡ codes "{\"code\":\"resource_exhausted\",\"message\":\"hotel: sold out\"}" }
    ensures body_bytes { length (document Code.ResourceExhausted (codes "hotel: sold out")) ≡ 57 }
    ensures bytes { bytes_queued (Opening ∷ asks quote None 0 ∷ fails 0 1 Code.ResourceExhausted (codes "sold out") ∷ answers 0 0 (codes "1") ∷ []) ≡ 143 }
{}

/// The request's timeout is reached at 1100, not at 1099.
fn header_deadline()
    ensures before { replies 0 (past_of (Opening ∷ Moment 1000 ∷ asks quote (Some 100) 0 ∷ Moment 1099 ∷ []))
        ≡ [] }
    ensures replies { replies 0 (past_of (Opening ∷ Moment 1000 ∷ asks quote (Some 100) 0 ∷ Moment 1099 ∷ Moment 1100 ∷ []))
        ≡ failed Code.DeadlineExceeded (codes "context deadline exceeded") ∷ [] }
    ensures body { document Code.DeadlineExceeded (codes "context deadline exceeded") ≡ codes "{\"code\":\"deadline_exceeded\",\"message\":\"context deadline exceeded\"}" }
    ensures body_bytes { length (document Code.DeadlineExceeded (codes "context deadline exceeded")) ≡ 66 }
    ensures bytes { bytes_queued (Opening ∷ Moment 1000 ∷ asks quote (Some 100) 0 ∷ Moment 1099 ∷ Moment 1100 ∷ []) ≡ 150 }
{}

/// The plan's timeout is the smaller one.
fn plan_deadline()
    ensures before { replies 0 (past_of (Opening ∷ Moment 0 ∷ asks quote (Some 9999999999) 0 ∷ Moment 4999 ∷ []))
        ≡ [] }
    ensures replies { replies 0 (past_of (Opening ∷ Moment 0 ∷ asks quote (Some 9999999999) 0 ∷ Moment 4999 ∷ Moment 5000 ∷ []))
        ≡ failed Code.DeadlineExceeded (codes "context deadline exceeded") ∷ [] }
{}

/// A call that is decided as it arrives starts nothing.
fn zero_timeout_and_drained()
    ensures replies { replies 0 (past_of (Opening ∷ asks quote (Some 0) 0 ∷ []))
        ≡ failed Code.DeadlineExceeded (codes "context deadline exceeded") ∷ [] }
    ensures starts { row_starts (Opening ∷ asks quote (Some 0) 0 ∷ [])
        ≡ [] }
    ensures drained { replies 0 (past_of (Opening ∷ Drain ∷ asks quote None 0 ∷ []))
        ≡ failed Code.Unavailable (codes "gateway is draining") ∷ [] }
    ensures drained_starts { row_starts (Opening ∷ Drain ∷ asks quote None 0 ∷ [])
        ≡ [] }
    ensures bytes { bytes_queued (Opening ∷ asks quote (Some 0) 0 ∷ []) ≡ 150 }
    ensures drained_body { document Code.Unavailable (codes "gateway is draining") ≡ codes "{\"code\":\"unavailable\",\"message\":\"gateway is draining\"}" }
    ensures drained_body_bytes { length (document Code.Unavailable (codes "gateway is draining")) ≡ 54 }
    ensures drained_bytes { bytes_queued (Opening ∷ Drain ∷ asks quote None 0 ∷ []) ≡ 142 }
{}

/// Results of branches that are not out are not counted.
fn stray_results()
    ensures not_started { how_seen (call_id 0 0) 2 (past_of (Opening ∷ asks quote None 0 ∷ []))
        ≡ Seen.Unknown }
    ensures counted { how_seen (call_id 0 0) 1 (past_of (Opening ∷ asks quote None 0 ∷ answers 0 2 (codes "3") ∷ []))
        ≡ Seen.Counted }
    ensures again { how_seen (call_id 0 0) 1 (past_of (Opening ∷ asks quote None 0 ∷ answers 0 2 (codes "3") ∷ answers 0 1 (codes "2") ∷ []))
        ≡ Seen.Unknown }
    ensures failure { how_seen (call_id 0 0) 0 (past_of (Opening ∷ asks quote None 0 ∷ answers 0 2 (codes "3") ∷ answers 0 1 (codes "2") ∷ answers 0 1 (codes "9") ∷ []))
        ≡ Seen.Counted }
    ensures late { how_seen (call_id 0 0) 2 (past_of (Opening ∷ asks quote None 0 ∷ answers 0 2 (codes "3") ∷ answers 0 1 (codes "2") ∷ answers 0 1 (codes "9") ∷ fails 0 0 Code.Unavailable (codes "HTTP status 503") ∷ []))
        ≡ Seen.Late }
    ensures late_again { how_seen (call_id 0 0) 2 (past_of (Opening ∷ asks quote None 0 ∷ answers 0 2 (codes "3") ∷ answers 0 1 (codes "2") ∷ answers 0 1 (codes "9") ∷ fails 0 0 Code.Unavailable (codes "HTTP status 503") ∷ answers 0 2 (codes "3") ∷ []))
        ≡ Seen.Unknown }
    ensures replies { replies 0 (past_of (Opening ∷ asks quote None 0 ∷ answers 0 2 (codes "3") ∷ answers 0 1 (codes "2") ∷ answers 0 1 (codes "9") ∷ fails 0 0 Code.Unavailable (codes "HTTP status 503") ∷ answers 0 2 (codes "3") ∷ answers 0 2 (codes "3") ∷ []))
        ≡ failed Code.Unavailable (codes "flight: HTTP status 503") ∷ [] }
    ensures body { document Code.Unavailable (codes "flight: HTTP status 503") ≡ codes "{\"code\":\"unavailable\",\"message\":\"flight: HTTP status 503\"}" }
    ensures body_bytes { length (document Code.Unavailable (codes "flight: HTTP status 503")) ≡ 58 }
    ensures bytes { bytes_queued (Opening ∷ asks quote None 0 ∷ answers 0 2 (codes "3") ∷ answers 0 1 (codes "2") ∷ answers 0 1 (codes "9") ∷ fails 0 0 Code.Unavailable (codes "HTTP status 503") ∷ answers 0 2 (codes "3") ∷ answers 0 2 (codes "3") ∷ []) ≡ 146 }
{}

/// The peer hangs up.
fn hang_up()
    ensures replies { replies 0 (past_of (Opening ∷ asks ping None 0 ∷ HangUp 0 ∷ []))
        ≡ failed Code.Canceled (codes "context canceled") ∷ [] }
    ensures body { document Code.Canceled (codes "context canceled") ≡ codes "{\"code\":\"canceled\",\"message\":\"context canceled\"}" }
    ensures body_bytes { length (document Code.Canceled (codes "context canceled")) ≡ 48 }
    ensures bytes { bytes_queued (Opening ∷ asks ping None 0 ∷ HangUp 0 ∷ []) ≡ 138 }
{}

/// The greatest moment counts, not the newest.
fn moments_back()
    ensures before { replies 0 (past_of (Opening ∷ Moment 50 ∷ Moment 20 ∷ asks ping (Some 10) 0 ∷ Moment 59 ∷ []))
        ≡ [] }
    ensures replies { replies 0 (past_of (Opening ∷ Moment 50 ∷ Moment 20 ∷ asks ping (Some 10) 0 ∷ Moment 59 ∷ Moment 60 ∷ []))
        ≡ failed Code.DeadlineExceeded (codes "context deadline exceeded") ∷ [] }
{}

/// An answer comes before the deadline.
fn answered_before_deadline()
    ensures replies { replies 0 (past_of (Opening ∷ asks ping (Some 10) 0 ∷ Moment 9 ∷ answers 0 0 (codes "1") ∷ Moment 10 ∷ []))
        ≡ succeeded (codes "{\"pong\":1}") ∷ [] }
{}

/// A result after the deadline is late, and one of a call decided at its arrival is unknown.
fn deadline_after_start()
    ensures late { how_seen (call_id 0 0) 0 (past_of (Opening ∷ Moment 1000 ∷ asks ping (Some 100) 0 ∷ Moment 1099 ∷ Moment 1100 ∷ []))
        ≡ Seen.Late }
    ensures unknown { how_seen (call_id 0 0) 0 (past_of (Opening ∷ asks ping (Some 0) 0 ∷ []))
        ≡ Seen.Unknown }
{}

/// Replies stand in the order of requests.
fn pipelined_pair()
    ensures second { replies 0 (past_of (Opening ∷ asks ping None 0 ∷ asks ping None 1 ∷ answers 1 0 (codes "1") ∷ []))
        ≡ [] }
    ensures replies { replies 0 (past_of (Opening ∷ asks ping None 0 ∷ asks ping None 1 ∷ answers 1 0 (codes "1") ∷ answers 0 0 (codes "0") ∷ []))
        ≡ succeeded (codes "{\"pong\":0}") ∷ succeeded (codes "{\"pong\":1}") ∷ [] }
{}

/// The ninth call of a connection is one too many, and is answered behind the others.
fn crowded()
    ensures none { replies 0 (past_of (Opening ∷ map (asks ping None) (range_with_len 0 9)))
        ≡ [] }
    ensures replies { replies 0 (past_of (Opening ∷ map (asks ping None) (range_with_len 0 9) ++ answers 0 0 (codes "1") ∷ answers 1 0 (codes "1") ∷ answers 2 0 (codes "1") ∷ answers 3 0 (codes "1") ∷ answers 4 0 (codes "1") ∷ answers 5 0 (codes "1") ∷ answers 6 0 (codes "1") ∷ answers 7 0 (codes "1") ∷ []))
        ≡ succeeded (codes "{\"pong\":1}") ∷ succeeded (codes "{\"pong\":1}") ∷ succeeded (codes "{\"pong\":1}") ∷ succeeded (codes "{\"pong\":1}") ∷ succeeded (codes "{\"pong\":1}") ∷ succeeded (codes "{\"pong\":1}") ∷ succeeded (codes "{\"pong\":1}") ∷ succeeded (codes "{\"pong\":1}") ∷ failed Code.ResourceExhausted (codes "more than 8 calls in flight") ∷ [] }
    ensures body { document Code.ResourceExhausted (codes "more than 8 calls in flight") ≡ codes "{\"code\":\"resource_exhausted\",\"message\":\"more than 8 calls in flight\"}" }
    ensures body_bytes { length (document Code.ResourceExhausted (codes "more than 8 calls in flight")) ≡ 69 }
    ensures bytes { bytes_queued (Opening ∷ map (asks ping None) (range_with_len 0 9) ++ answers 0 0 (codes "1") ∷ answers 1 0 (codes "1") ∷ answers 2 0 (codes "1") ∷ answers 3 0 (codes "1") ∷ answers 4 0 (codes "1") ∷ answers 5 0 (codes "1") ∷ answers 6 0 (codes "1") ∷ answers 7 0 (codes "1") ∷ []) ≡ 803 }
{}

/// A request that is no call, and a refusal, are answered at once and in their order.
fn judged_and_refused()
    ensures replies { replies 0 (past_of (Opening ∷ asks ping None 0 ∷ gets 1 ∷ refuses Refusal.BadHost ∷ answers 0 0 (codes "1") ∷ []))
        ≡ succeeded (codes "{\"pong\":1}") ∷ reply_of (bare_reply 405 false) false ∷ reply_of (bare_reply 400 true) true ∷ [] }
    ensures waiting { replies 0 (past_of (Opening ∷ asks ping None 0 ∷ gets 1 ∷ refuses Refusal.BadHost ∷ []))
        ≡ [] }
{}

/// The hundredth request is the connection's last, whatever it is.
fn hundred_requests()
    ensures replies { replies 0 (marked (after_gets 100)) ≡ replicate 99 (reply_of (bare_reply 405 false) false) ++ reply_of (bare_reply 405 true) true ∷ [] }
    ensures bytes { length (queued 0 (marked (after_gets 100))) ≡ 6719 }
{
    entry_law();
}

/// A new connection has another number: a result for the old one's call is late, and nothing is queued for the new one.
fn stale_connection()
    ensures late { how_seen (call_id 0 0) 0 (past_of (Opening ∷ asks ping None 0 ∷ Closing 0 ∷ Opening ∷ []))
        ≡ Seen.Late }
    ensures unknown { how_seen (call_id 0 0) 0 (past_of (Opening ∷ asks ping None 0 ∷ Closing 0 ∷ Opening ∷ answers 0 0 (codes "1") ∷ []))
        ≡ Seen.Unknown }
    ensures replies { replies 1 (past_of (Opening ∷ asks ping None 0 ∷ Closing 0 ∷ Opening ∷ answers 0 0 (codes "1") ∷ answers 0 0 (codes "1") ∷ []))
        ≡ [] }
{}

/// A flood of stale and strange results changes nothing; the drain decides.
fn flood()
    ensures late { how_seen (call_id 0 0) 0 (past_of (Opening ∷ asks quote None 0 ∷ answers 0 1 (codes "2") ∷ answers 0 1 (codes "9") ∷ answers 7 0 (codes "9") ∷ Drain ∷ []))
        ≡ Seen.Late }
    ensures late_too { how_seen (call_id 0 0) 2 (past_of (Opening ∷ asks quote None 0 ∷ answers 0 1 (codes "2") ∷ answers 0 1 (codes "9") ∷ answers 7 0 (codes "9") ∷ Drain ∷ answers 0 0 (codes "1") ∷ []))
        ≡ Seen.Late }
    ensures unknown { how_seen (call_id 0 0) 0 (past_of (Opening ∷ asks quote None 0 ∷ answers 0 1 (codes "2") ∷ answers 0 1 (codes "9") ∷ answers 7 0 (codes "9") ∷ Drain ∷ answers 0 0 (codes "1") ∷ answers 0 2 (codes "3") ∷ []))
        ≡ Seen.Unknown }
    ensures replies { replies 0 (past_of (Opening ∷ asks quote None 0 ∷ answers 0 1 (codes "2") ∷ answers 0 1 (codes "9") ∷ answers 7 0 (codes "9") ∷ Drain ∷ answers 0 0 (codes "1") ∷ answers 0 2 (codes "3") ∷ answers 0 0 (codes "1") ∷ []))
        ≡ failed Code.Unavailable (codes "gateway is draining") ∷ [] }
{}

/// However many results come of a branch that answered, or of a call of another connection, the first call goes on as
/// before.
fn floods()
    ensures again { (strangers repeats : ℕ) → how_seen (call_id 0 0) 1 (marked (flooded strangers repeats)) ≡ Seen.Unknown }
    ensures strange { (strangers repeats : ℕ) → how_seen (call_id 7 0) 0 (marked (flooded strangers repeats)) ≡ Seen.Unknown }
    ensures goes_on { (strangers repeats : ℕ) → how_seen (call_id 0 0) 0 (marked (flooded strangers repeats)) ≡ Seen.Counted }
    ensures replies { (strangers repeats : ℕ) → replies 0 (marked (flooded strangers repeats)) ≡ [] }
{
    unknown_law();
}

/// The records of decided calls are lawful and decided.
fn lawful_records()
    ensures joined { is_lawful_row (Opening ∷ asks quote None 0 ∷ answers 0 1 (codes "2") ∷ answers 0 0 (codes "1") ∷ answers 0 2 (codes "3") ∷ []) ≡ true }
    ensures failed { is_lawful_row (Opening ∷ asks quote None 0 ∷ answers 0 1 (codes "2") ∷ fails 0 0 Code.Unavailable (codes "busy") ∷ answers 0 2 (codes "3") ∷ []) ≡ true }
    ensures expired { is_lawful_row (Opening ∷ Moment 1000 ∷ asks quote (Some 100) 0 ∷ Moment 1100 ∷ []) ≡ true }
    ensures at_start { is_lawful_row (Opening ∷ asks quote (Some 0) 0 ∷ []) ≡ true }
    ensures drained { is_lawful_row (Opening ∷ Drain ∷ asks quote (Some 0) 0 ∷ []) ≡ true }
    ensures hung_up { is_lawful_row (Opening ∷ asks ping None 0 ∷ HangUp 0 ∷ []) ≡ true }
{}

/// What no call comes to is no lawful record.
fn unlawful_records()
    ensures twice { is_lawful (quote_record (Answered 0 (codes "1") ∷ Answered 0 (codes "1") ∷ [])) ≡ false }
    ensures not_started { is_lawful (quote_record (Answered 2 (codes "3") ∷ [])) ≡ false }
    ensures early { is_lawful (quote_record (Expired 4999 ∷ [])) ≡ false }
    ensures behind_the_end { is_lawful (quote_record (HungUp ∷ Answered 0 (codes "1") ∷ [])) ≡ false }
    ensures late_at_start { is_lawful (record (quote_record (HungUp ∷ [])) { deadline = Some 0 }) ≡ false }
    ensures undecided { is_decided (quote_record (Answered 0 (codes "1") ∷ Answered 1 (codes "2") ∷ [])) ≡ false }
{}

/// A closed connection's call is never decided.
fn closing()
    ensures late { how_seen (call_id 0 0) 0 (past_of (Opening ∷ asks ping None 0 ∷ Closing 0 ∷ []))
        ≡ Seen.Late }
    ensures replies { replies 0 (past_of (Opening ∷ asks ping None 0 ∷ Closing 0 ∷ answers 0 0 (codes "1") ∷ Drain ∷ []))
        ≡ [] }
{}
