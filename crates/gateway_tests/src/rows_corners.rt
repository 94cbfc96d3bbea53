//! The worked rows at the corners of the definitions: the moment that counts, the connection that counts, the calls
//! that count. The functions do nothing.
ghost use Rattle.std.specs.Prelude.{◌≡◌, ◌^◌, ◌+◌, ◌++◌, ◌∷◌, [], map, codes, false, None, Some};
ghost use Rattle.std.specs.List.{range_with_len};
ghost use Rattle.error_document.specs.declared.code.Code.{Code};
ghost use Rattle.gateway_model.specs.declared.entry.ReplyEntry.{ReplyEntry};
ghost use Rattle.gateway_model.specs.declared.call_event.CallEvent.{CallEvent};
ghost use Rattle.gateway_model.specs.declared.seen.Seen.{Seen};
ghost use Rattle.gateway_tests.specs.Rows.{job_with};
ghost use Rattle.gateway_model.specs.Occurrence.{Opening, HangUp, Moment, Result, Drain, Closing};
ghost use Rattle.gateway_tests.specs.Rows.{record_with};
ghost use Rattle.gateway_model.specs.Past.{call_id, how_seen, now, past_of};
ghost use Rattle.gateway_model.specs.Queue.{entry};
ghost use Rattle.gateway_theory.specs.Replies.{replies};
ghost use Rattle.gateway_model.specs.Record.{is_lawful};
ghost use Rattle.gateway_theory.specs.Starting.{start};
ghost use Rattle.gateway_tests.specs.Rows.{row_starts, quote_record, ping, quote, request_for, asks, asks_on, answers, fails, failed, error, record_in};

/// Moments are cut at 2^62, and not below.
fn great_moments()
    ensures cut { now (past_of (Moment (2 ^ 62 + 5) ∷ [])) ≡ 2 ^ 62 }
    ensures below { now (past_of (Moment (2 ^ 61 + 5) ∷ [])) ≡ 2 ^ 61 + 5 }
    ensures never { replies 0 (past_of (Opening ∷ Moment (2 ^ 62) ∷ asks ping (Some 1) 0 ∷ Moment (2 ^ 62 + 5) ∷ [])) ≡ [] }
    ensures expired { record_in (Opening ∷ Moment (2 ^ 61) ∷ asks ping (Some (2 ^ 61)) 0 ∷ Moment (2 ^ 62 + 5) ∷ [])
        ≡ Some (record_with ping (2 ^ 61) (Some (2 ^ 62)) false (None ∷ []) (CallEvent.Expired (2 ^ 62) ∷ [])) }
{}

/// A call that arrives at a later moment begins there, and expires there where its timeout is 0.
fn later_arrival()
    ensures starts { record_in (Opening ∷ Moment 1000 ∷ asks ping None 0 ∷ answers 0 0 (codes "1") ∷ [])
        ≡ Some (record_with ping 1000 None false (None ∷ []) (CallEvent.Answer 0 (codes "1") ∷ [])) }
    ensures expires { record_in (Opening ∷ Moment 1000 ∷ asks ping (Some 0) 0 ∷ [])
        ≡ Some (record_with ping 1000 (Some 1000) false [] (CallEvent.Expired 1000 ∷ [])) }
{}

/// The drain comes before the deadline.
fn drained_before_expired()
    ensures { replies 0 (past_of (Opening ∷ Drain ∷ asks quote (Some 0) 0 ∷ []))
        ≡ failed Code.Unavailable (codes "gateway is draining") ∷ [] }
{}

/// What happens to another connection is nothing to this one.
fn other_connection()
    ensures hang_up { replies 0 (past_of (Opening ∷ Opening ∷ asks ping None 0 ∷ HangUp 1 ∷ [])) ≡ [] }
    ensures hung_up { how_seen (call_id 0 0) 0 (past_of (Opening ∷ Opening ∷ asks ping None 0 ∷ HangUp 1 ∷ [])) ≡ Seen.Counted }
    ensures closing { how_seen (call_id 0 0) 0 (past_of (Opening ∷ Opening ∷ asks ping None 0 ∷ Closing 1 ∷ [])) ≡ Seen.Counted }
    ensures calls { entry (call_id 1 0) (past_of (Opening ∷ Opening ∷ map (asks ping None) (range_with_len 0 8) ++ asks_on 1 ping (Some 0) None 0 ∷ []))
        ≡ Some (ReplyEntry.Call (record_with ping 0 (Some 0) false [] (CallEvent.Expired 0 ∷ []))) }
{}

/// The ninth undecided call of any connection is one too many; a call that was decided does not count.
fn ninth_call()
    ensures crowded { entry (call_id 1 8) (past_of (Opening ∷ Opening ∷ map (asks_on 1 ping None None) (range_with_len 0 9)))
        ≡ Some (ReplyEntry.Crowded false) }
    ensures after_one { how_seen (call_id 0 8) 0 (past_of (Opening ∷ map (asks ping None) (range_with_len 0 8) ++ answers 3 0 (codes "1") ∷ asks ping None 8 ∷ []))
        ≡ Seen.Counted }
{}

/// A failure is lawful of a branch alone that is out.
fn unlawful_failures()
    ensures not_started { is_lawful (quote_record (CallEvent.Failed 2 (error Code.Unavailable (codes "busy")) ∷ [])) ≡ false }
    ensures answered { is_lawful (quote_record (CallEvent.Answer 0 (codes "1") ∷ CallEvent.Failed 0 (error Code.Unavailable (codes "busy")) ∷ [])) ≡ false }
{}

/// A job has the id of its call's request, its call's deadline, and what is left until then as its branch starts.
fn branch_request()
    ensures { row_starts (Opening ∷ Moment 1000 ∷ asks_on 0 quote (Some 100) (Some (codes "r-7")) 0 ∷ Moment 1010 ∷ answers 0 1 (codes "2") ∷ [])
        ≡ start 2 (job_with (call_id 0 0) 0 quote (request_for quote.path 0) (Some (codes "r-7")) (Some 1100) (Some 100))
        ∷ start 2 (job_with (call_id 0 0) 1 quote (request_for quote.path 0) (Some (codes "r-7")) (Some 1100) (Some 100))
        ∷ start 4 (job_with (call_id 0 0) 2 quote (request_for quote.path 0) (Some (codes "r-7")) (Some 1100) (Some 90)) ∷ [] }
{}
