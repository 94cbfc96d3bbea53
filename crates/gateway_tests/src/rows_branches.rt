//! The worked rows of branches with a timeout: what the definitions give for them. The functions do nothing.
ghost use Rattle.std.specs.Prelude.{◌≡◌, ℕ, ◌+◌, ◌^◌, ◌∷◌, [], ◌++◌, length, codes, true, false, None, Some, option_map};
ghost use Rattle.error_document.specs.declared.code.Code.{Code};
ghost use Rattle.gateway_model.specs.CallRecord.{CallRecord};
ghost use Rattle.gateway_model.specs.declared.seen.Seen.{Seen};
ghost use Rattle.gateway_model.specs.Occurrence.{Opening, HangUp, Moment, Drain, Closing};
ghost use Rattle.gateway_model.specs.declared.call_event.CallEvent.TheVariants.{Answer as Answered, BranchExpired, HungUp};
ghost use Rattle.gateway_model.specs.Past.{call_id, how_seen, outs, past_of};
ghost use Rattle.gateway_theory.specs.Replies.{replies};
ghost use Rattle.gateway_model.specs.Record.{is_lawful, is_decided};
ghost use Rattle.gateway_tests.specs.Rows.{row_starts, starts_with, is_lawful_row, hotel_record, ping, quote, timed, quote_timed, asked_at_1000, asks, asks_on, answers, fails, succeeded, failed, document, bytes_queued, record_in};

/// A branch that is out reaches its deadline at 1050, not at 1049; it stays out until its result, which is late.
fn hotel_expires()
    ensures before { replies 0 (past_of (asked_at_1000 None (Some 50) None ++ Moment 1049 ∷ [])) ≡ [] }
    ensures replies { replies 0 (past_of (asked_at_1000 None (Some 50) None ++ Moment 1049 ∷ Moment 1050 ∷ []))
        ≡ failed Code.DeadlineExceeded (codes "hotel: context deadline exceeded") ∷ [] }
    ensures late { how_seen (call_id 0 0) 1 (past_of (asked_at_1000 None (Some 50) None ++ Moment 1050 ∷ [])) ≡ Seen.Late }
    ensures unknown { how_seen (call_id 0 0) 1 (past_of (asked_at_1000 None (Some 50) None ++ Moment 1050 ∷ answers 0 1 (codes "2") ∷ []))
        ≡ Seen.Unknown }
    ensures body { document Code.DeadlineExceeded (codes "hotel: context deadline exceeded")
        ≡ codes "{\"code\":\"deadline_exceeded\",\"message\":\"hotel: context deadline exceeded\"}" }
    ensures body_bytes { length (document Code.DeadlineExceeded (codes "hotel: context deadline exceeded")) ≡ 73 }
    ensures bytes { bytes_queued (asked_at_1000 None (Some 50) None ++ Moment 1050 ∷ []) ≡ 157 }
    ensures lawful { is_lawful_row (asked_at_1000 None (Some 50) None ++ Moment 1050 ∷ []) ≡ true }
{}

/// Of equal deadlines the call's decides.
fn tie_with_the_call()
    ensures replies { replies 0 (past_of (Opening ∷ Moment 1000 ∷ asks (quote_timed None (Some 50) None) (Some 50) 0 ∷ Moment 1050 ∷ []))
        ≡ failed Code.DeadlineExceeded (codes "context deadline exceeded") ∷ [] }
    ensures sooner_call { replies 0 (past_of (Opening ∷ Moment 1000 ∷ asks (quote_timed None (Some 50) None) (Some 40) 0 ∷ Moment 1100 ∷ []))
        ≡ failed Code.DeadlineExceeded (codes "context deadline exceeded") ∷ [] }
    ensures sooner_branch { replies 0 (past_of (Opening ∷ Moment 1000 ∷ asks (quote_timed None (Some 50) None) (Some 60) 0 ∷ Moment 1100 ∷ []))
        ≡ failed Code.DeadlineExceeded (codes "hotel: context deadline exceeded") ∷ [] }
{}

/// The least deadline decides; of equal ones that of the branch declared first.
fn least_of_branches()
    ensures least { replies 0 (past_of (asked_at_1000 (Some 60) (Some 50) None ++ Moment 1100 ∷ []))
        ≡ failed Code.DeadlineExceeded (codes "hotel: context deadline exceeded") ∷ [] }
    ensures tie { replies 0 (past_of (asked_at_1000 (Some 50) (Some 50) None ++ Moment 1050 ∷ []))
        ≡ failed Code.DeadlineExceeded (codes "flight: context deadline exceeded") ∷ [] }
    ensures tie_bytes { bytes_queued (asked_at_1000 (Some 50) (Some 50) None ++ Moment 1050 ∷ []) ≡ 158 }
{}

/// A branch's time is counted from its start.
fn later_start()
    ensures before { replies 0 (past_of (asked_at_1000 None (Some 50) (Some 10) ++ Moment 1030 ∷ answers 0 1 (codes "2") ∷ Moment 1039 ∷ [])) ≡ [] }
    ensures replies { replies 0 (past_of (asked_at_1000 None (Some 50) (Some 10) ++ Moment 1030 ∷ answers 0 1 (codes "2") ∷ Moment 1039 ∷ Moment 1040 ∷ []))
        ≡ failed Code.DeadlineExceeded (codes "car: context deadline exceeded") ∷ [] }
    ensures bytes { bytes_queued (asked_at_1000 None (Some 50) (Some 10) ++ Moment 1030 ∷ answers 0 1 (codes "2") ∷ Moment 1040 ∷ []) ≡ 155 }
    ensures starts { row_starts (asked_at_1000 None (Some 50) (Some 10) ++ Moment 1030 ∷ answers 0 1 (codes "2") ∷ [])
        ≡ starts_with (quote_timed None (Some 50) (Some 10)) 2 0 (Some 6000) (Some 5000) ∷ starts_with (quote_timed None (Some 50) (Some 10)) 2 1 (Some 1050) (Some 50) ∷ starts_with (quote_timed None (Some 50) (Some 10)) 4 2 (Some 1040) (Some 10) ∷ [] }
    ensures deadlines { option_map (λ (r : CallRecord). r.branch_deadlines) (record_in (asked_at_1000 None (Some 50) (Some 10) ++ Moment 1030 ∷ answers 0 1 (codes "2") ∷ Moment 1040 ∷ []))
        ≡ Some (None ∷ Some 1050 ∷ Some 1040 ∷ []) }
{}

/// A branch that answered or failed reaches no deadline.
fn answered_just_before()
    ensures answered { replies 0 (past_of (asked_at_1000 None (Some 50) None ++ Moment 1049 ∷ answers 0 1 (codes "2") ∷ Moment 1050 ∷ [])) ≡ [] }
    ensures joined { replies 0 (past_of (asked_at_1000 None (Some 50) None ++ Moment 1049 ∷ answers 0 1 (codes "2") ∷ Moment 1050 ∷ answers 0 0 (codes "1") ∷ answers 0 2 (codes "3") ∷ []))
        ≡ succeeded (codes "{\"flight\":1,\"hotel\":2,\"car\":3}") ∷ [] }
    ensures failed { replies 0 (past_of (asked_at_1000 None (Some 50) None ++ Moment 1049 ∷ fails 0 1 Code.ResourceExhausted (codes "sold out") ∷ Moment 1050 ∷ []))
        ≡ failed Code.ResourceExhausted (codes "hotel: sold out") ∷ [] }
{}

/// A branch that has not started has no deadline; one never expires at its own start.
fn not_started()
    ensures waits { replies 0 (past_of (asked_at_1000 None None (Some 10) ++ Moment 1010 ∷ Moment 5999 ∷ [])) ≡ [] }
    ensures call { replies 0 (past_of (asked_at_1000 None None (Some 10) ++ Moment 1010 ∷ Moment 5999 ∷ Moment 6000 ∷ []))
        ≡ failed Code.DeadlineExceeded (codes "context deadline exceeded") ∷ [] }
    ensures start { replies 0 (past_of (asked_at_1000 None (Some 50) (Some 1) ++ Moment 1030 ∷ answers 0 1 (codes "2") ∷ Moment 1030 ∷ [])) ≡ [] }
    ensures next { replies 0 (past_of (asked_at_1000 None (Some 50) (Some 1) ++ Moment 1030 ∷ answers 0 1 (codes "2") ∷ Moment 1030 ∷ Moment 1031 ∷ []))
        ≡ failed Code.DeadlineExceeded (codes "car: context deadline exceeded") ∷ [] }
{}

/// The clock never goes back, and stops at 2^62.
fn moments_back()
    ensures before { replies 0 (past_of (Opening ∷ Moment 2000 ∷ Moment 1500 ∷ asks (quote_timed None (Some 50) None) None 0 ∷ Moment 2049 ∷ Moment 20 ∷ []))
        ≡ [] }
    ensures replies { replies 0 (past_of (Opening ∷ Moment 2000 ∷ Moment 1500 ∷ asks (quote_timed None (Some 50) None) None 0 ∷ Moment 2049 ∷ Moment 20 ∷ Moment 2050 ∷ []))
        ≡ failed Code.DeadlineExceeded (codes "hotel: context deadline exceeded") ∷ [] }
    ensures last { replies 0 (past_of (Opening ∷ Moment (2 ^ 62) ∷ asks (quote_timed None (Some 50) None) None 0 ∷ Moment (2 ^ 62 + 50) ∷ [])) ≡ [] }
{}

/// A job has the sooner deadline, and what is left until then.
fn time_left()
    ensures longer { row_starts (asked_at_1000 None (Some 9000) None)
        ≡ starts_with (quote_timed None (Some 9000) None) 2 0 (Some 6000) (Some 5000) ∷ starts_with (quote_timed None (Some 9000) None) 2 1 (Some 6000) (Some 5000) ∷ [] }
    ensures call { replies 0 (past_of (asked_at_1000 None (Some 9000) None ++ Moment 6000 ∷ []))
        ≡ failed Code.DeadlineExceeded (codes "context deadline exceeded") ∷ [] }
    ensures shorter { row_starts (asked_at_1000 None (Some 50) None)
        ≡ starts_with (quote_timed None (Some 50) None) 2 0 (Some 6000) (Some 5000) ∷ starts_with (quote_timed None (Some 50) None) 2 1 (Some 1050) (Some 50) ∷ [] }
{}

/// A branch that expired is out until its result, and frees no place.
fn limit_is_kept()
    ensures both { outs (call_id 0 0) (past_of (asked_at_1000 None (Some 50) None ++ Moment 1050 ∷ [])) ≡ 2 }
    ensures starts { row_starts (asked_at_1000 None (Some 50) None ++ Moment 1050 ∷ answers 0 0 (codes "1") ∷ answers 0 1 (codes "2") ∷ [])
        ≡ starts_with (quote_timed None (Some 50) None) 2 0 (Some 6000) (Some 5000) ∷ starts_with (quote_timed None (Some 50) None) 2 1 (Some 1050) (Some 50) ∷ [] }
    ensures none { outs (call_id 0 0) (past_of (asked_at_1000 None (Some 50) None ++ Moment 1050 ∷ answers 0 0 (codes "1") ∷ answers 0 1 (codes "2") ∷ []))
        ≡ 0 }
{}

/// Nothing that comes later changes what was sent.
fn nothing_after()
    ensures replies { replies 0 (past_of (asked_at_1000 None (Some 50) None ++ Moment 1050 ∷ Drain ∷ HangUp 0 ∷ Moment 6000 ∷ []))
        ≡ failed Code.DeadlineExceeded (codes "hotel: context deadline exceeded") ∷ [] }
    ensures drained { replies 0 (past_of (asked_at_1000 None (Some 50) None ++ Drain ∷ Moment 1050 ∷ []))
        ≡ failed Code.Unavailable (codes "gateway is draining") ∷ [] }
    ensures closed { replies 0 (past_of (asked_at_1000 None (Some 50) None ++ Closing 0 ∷ Moment 1050 ∷ [])) ≡ [] }
    ensures frozen { option_map (λ (r : CallRecord). r.branch_deadlines) (record_in (asked_at_1000 None (Some 50) (Some 10) ++ Moment 1050 ∷ answers 0 0 (codes "1") ∷ answers 0 1 (codes "2") ∷ []))
        ≡ Some (None ∷ Some 1050 ∷ []) }
    ensures at_arrival { option_map (λ (r : CallRecord). r.branch_deadlines) (record_in (Opening ∷ asks (quote_timed None (Some 50) None) (Some 0) 0 ∷ []))
        ≡ Some [] }
{}

/// Of a plan of limit 1 each branch has its time from its own start.
fn one_at_a_time()
    ensures joined { replies 0 (past_of (Opening ∷ asks (timed (record quote { limit = 1 }) (Some 10) (Some 10) (Some 10)) None 0 ∷ Moment 9 ∷ answers 0 0 (codes "1") ∷ Moment 18 ∷ answers 0 1 (codes "2") ∷ Moment 27 ∷ answers 0 2 (codes "3") ∷ []))
        ≡ succeeded (codes "{\"flight\":1,\"hotel\":2,\"car\":3}") ∷ [] }
    ensures expired { replies 0 (past_of (Opening ∷ asks (timed (record quote { limit = 1 }) (Some 10) (Some 10) (Some 10)) None 0 ∷ Moment 9 ∷ answers 0 0 (codes "1") ∷ Moment 18 ∷ answers 0 1 (codes "2") ∷ Moment 28 ∷ answers 0 2 (codes "3") ∷ []))
        ≡ failed Code.DeadlineExceeded (codes "car: context deadline exceeded") ∷ [] }
{}

/// A branch's deadline in a record.
fn records()
    ensures lawful { is_lawful (hotel_record (BranchExpired 1 1050 ∷ [])) ≡ true }
    ensures decided { is_decided (hotel_record (BranchExpired 1 1050 ∷ [])) ≡ true }
    ensures early { is_lawful (hotel_record (BranchExpired 1 1049 ∷ [])) ≡ false }
    ensures not_started { is_lawful (hotel_record (BranchExpired 2 1050 ∷ [])) ≡ false }
    ensures answered { is_lawful (hotel_record (Answered 1 (codes "2") ∷ BranchExpired 1 1050 ∷ [])) ≡ false }
    ensures without_a_time { is_lawful (hotel_record (BranchExpired 0 1050 ∷ [])) ≡ false }
    ensures behind_the_end { is_lawful (hotel_record (BranchExpired 1 1050 ∷ HungUp ∷ [])) ≡ false }
    ensures other_lawful { is_lawful (hotel_record (Answered 0 (codes "1") ∷ BranchExpired 1 1050 ∷ [])) ≡ true }
{}

/// One moment decides on each connection by itself, and a reply waits for those before it.
fn one_moment_for_all()
    ensures call { replies 0 (past_of (Opening ∷ Opening ∷ Opening ∷ Moment 1000 ∷ asks ping (Some 50) 0 ∷ asks_on 1 (quote_timed None (Some 50) None) None None 0 ∷ asks_on 2 quote None None 0 ∷ Moment 1050 ∷ []))
        ≡ failed Code.DeadlineExceeded (codes "context deadline exceeded") ∷ [] }
    ensures branch { replies 1 (past_of (Opening ∷ Opening ∷ Opening ∷ Moment 1000 ∷ asks ping (Some 50) 0 ∷ asks_on 1 (quote_timed None (Some 50) None) None None 0 ∷ asks_on 2 quote None None 0 ∷ Moment 1050 ∷ []))
        ≡ failed Code.DeadlineExceeded (codes "hotel: context deadline exceeded") ∷ [] }
    ensures neither { replies 2 (past_of (Opening ∷ Opening ∷ Opening ∷ Moment 1000 ∷ asks ping (Some 50) 0 ∷ asks_on 1 (quote_timed None (Some 50) None) None None 0 ∷ asks_on 2 quote None None 0 ∷ Moment 1050 ∷ []))
        ≡ [] }
    ensures held { replies 0 (past_of (Opening ∷ Moment 1000 ∷ asks (quote_timed None (Some 60) None) None 0 ∷ asks ping (Some 50) 1 ∷ Moment 1050 ∷ []))
        ≡ [] }
    ensures in_order { replies 0 (past_of (Opening ∷ Moment 1000 ∷ asks (quote_timed None (Some 60) None) None 0 ∷ asks ping (Some 50) 1 ∷ Moment 1050 ∷ Moment 1060 ∷ []))
        ≡ failed Code.DeadlineExceeded (codes "hotel: context deadline exceeded") ∷ failed Code.DeadlineExceeded (codes "context deadline exceeded") ∷ [] }
{}
