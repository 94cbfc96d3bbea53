//! What the definitions come to, as facts on every list of events. The functions do nothing.
ghost use Rattle.std.specs.Prelude.{◌≡◌, ℕ, true, ◌≤◌, ◌++◌, ◌∷◌, Some, None, Bool, List, Option, length, map};
ghost use Rattle.std.specs.Prelude.{option_map, slice_get};
ghost use Rattle.http_pieces.specs.declared.refusal.Refusal.{Refusal};
ghost use Rattle.http_pieces.specs.Request.{HttpRequest, closes};
ghost use Rattle.http_pieces.specs.Requests.{StreamEnd, Requests};
ghost use Rattle.connect_codec.specs.declared.verdict.Verdict.{Verdict};
ghost use Rattle.call_plan.specs.Plan.{PlanRecord};
ghost use Rattle.gateway_model.specs.Arrival.{Asks, Judged};
ghost use Rattle.gateway_model.specs.Occurrence.{Coming, Refused, Request};
ghost use Rattle.gateway_model.specs.declared.entry.ReplyEntry.{ReplyEntry};
ghost use Rattle.gateway_model.specs.declared.id.CallId.{CallId};
ghost use Rattle.gateway_model.specs.CallRecord.{CallRecord, answer_of_branch};
ghost use Rattle.gateway_model.specs.Past.{ArrivedCall, Past, call, call_id, is_undecided, outs};
ghost use Rattle.gateway_model.specs.Starts.{Placed, occurrences, starts};
ghost use Rattle.gateway_model.specs.Queue.{came, entry, own_events, queued, queued_entries, IsPrefixOf};
ghost use Rattle.gateway_model.specs.declared.event.Event.{Event};
ghost use Rattle.gateway_model.specs.declared.event.Event.TheVariants.{Piece};
ghost use Rattle.gateway_model.specs.Events.{Occurs, has_no_effect, stream, IsShifted};
ghost use Rattle.gateway_model.specs.Headline.{HasAnswered, IsAnswered, brought_by, came_on, past_by, shifted_by};
ghost use Rattle.gateway_model.specs.Run.{bytes_of};

use gateway_theory::event_laws::pieces_law;
use gateway_theory::laws::{
    decided_law, limit_law as out_limit_law, queue_law, record_law, starts_law,
};
use http_pieces::laws::{existence_law, fresh_law, requests_law};

/// These events come to one list of occurrences: to no other, and not to none.
pub fn occurs_law()
    ensures unique { (plans : List PlanRecord) (opened : List ℕ) (events : List Event) (a b : List Placed)
        → Occurs plans opened events a → Occurs plans opened events b → a ≡ b }
    ensures exists { (plans : List PlanRecord) (opened : List ℕ) (events : List Event)
        → ¬ ((occurred : List Placed) → ¬ (Occurs plans opened events occurred)) }
{
    existence_law();
    requests_law();
}

/// An event of no effect changes nothing.
pub fn no_effect_law()
    ensures { (plans : List PlanRecord) (opened : List ℕ) (e : Event) (before : List Event)
        (a b : List Placed) → has_no_effect opened e before ≡ true
        → Occurs plans opened before a → Occurs plans opened (e ∷ before) b → b ≡ a }
{
    requests_law();
}

/// What comes on a connection is what the whole of its stream is cut into, and request k is number k of it.
pub fn stream_law()
    ensures requests { (plans : List PlanRecord) (opened : List ℕ) (events : List Event)
        (occurred : List Placed) (conn : ℕ) (given : List HttpRequest) (ending : StreamEnd)
        → Occurs plans opened events occurred → Requests 0 (stream opened conn events) given ending
        → came_on conn (occurrences occurred) ≡ brought_by plans given ending }
    ensures numbers { (plans : List PlanRecord) (opened : List ℕ) (events : List Event)
        (occurred : List Placed) (conn k : ℕ) → Occurs plans opened events occurred
        → option_map (λ e. e.0) (came (call_id conn k) (past_by occurred))
        ≡ slice_get (came_on conn (occurrences occurred)) k }
{
    fresh_law();
    requests_law();
}

/// Each request has one reply: what is queued for a connection are the answers to its requests in their order, entry
/// number k to request k, up to the first that has none.
pub fn one_reply_law()
    ensures in_order { (plans : List PlanRecord) (opened : List ℕ) (events : List Event)
        (occurred : List Placed) (conn k : ℕ) (x : ReplyEntry) → Occurs plans opened events occurred
        → slice_get (queued_entries conn (past_by occurred)) k ≡ Some x
        → entry (call_id conn k) (past_by occurred) ≡ Some x }
    ensures up_to { (plans : List PlanRecord) (opened : List ℕ) (events : List Event)
        (occurred : List Placed) (conn : ℕ) → Occurs plans opened events occurred
        → entry (call_id conn (length (queued_entries conn (past_by occurred)))) (past_by occurred) ≡ None }
    ensures bytes { (plans : List PlanRecord) (opened : List ℕ) (events : List Event)
        (occurred : List Placed) (conn : ℕ) → Occurs plans opened events occurred
        → queued conn (past_by occurred) ≡ bytes_of (queued_entries conn (past_by occurred)) }
{}

/// A request that has come has no reply exactly while it is a call that is undecided.
pub fn undecided_law()
    ensures waits { (id : CallId) (past : Past) (e : Coming × Bool) → came id past ≡ Some e → entry id past ≡ None
        → is_undecided id past ≡ true }
    ensures no_reply { (id : CallId) (past : Past) → is_undecided id past ≡ true → entry id past ≡ None }
{}

/// A request that is no call is answered as it comes: by its refusal, its verdict, or as a call too many.
pub fn at_once_law()
    ensures refused { (id : CallId) (past : Past) (r : Refusal) (crowded : Bool)
        → came id past ≡ Some (Refused r, crowded) → entry id past ≡ Some (ReplyEntry.Refused r) }
    ensures judged { (id : CallId) (past : Past) (q : HttpRequest) (v : Verdict) (crowded : Bool)
        → came id past ≡ Some (Request q (Judged v), crowded) → entry id past ≡ Some (ReplyEntry.Judged v (closes q)) }
    ensures crowded { (id : CallId) (past : Past) (q : HttpRequest) (plan : PlanRecord) (timeout : Option ℕ)
        (request_id : Option (List ℕ)) → came id past ≡ Some (Request q (Asks plan timeout request_id), true)
        → entry id past ≡ Some (ReplyEntry.Crowded (closes q)) }
{}

/// The answer to a call is all its branches' answers joined, or the error of the first event that decides it.
pub fn answer_law()
    ensures joined_or_error { (plans : List PlanRecord) (opened : List ℕ) (events : List Event)
        (occurred : List Placed) (id : CallId) (r : CallRecord) → Occurs plans opened events occurred
        → entry id (past_by occurred) ≡ Some (ReplyEntry.Call r) → IsAnswered id r (occurrences occurred) }

    // Each answer is that of a result which counted.
    ensures from_results { (plans : List PlanRecord) (opened : List ℕ) (events : List Event)
        (occurred : List Placed) (id : CallId) (branch : ℕ) (body : List ℕ) → Occurs plans opened events occurred
        → answer_of_branch branch (own_events id (past_by occurred)) ≡ Some body
        → HasAnswered id branch body (occurrences occurred) }
{
    decided_law();
    record_law();
}

/// However the input is cut: where a piece comes as two, the same occurs, so that the same is queued, and the same
/// branches start, with the same jobs.
pub fn any_cut_law()
    ensures same { (plans : List PlanRecord) (opened shifted : List ℕ) (later before : List Event) (conn : ℕ)
        (p q : List ℕ) (a b : List Placed) → IsShifted (length before) opened shifted
        → Occurs plans opened (later ++ Piece conn (p ++ q) ∷ before) a
        → Occurs plans shifted (later ++ Piece conn q ∷ Piece conn p ∷ before) b
        → occurrences a ≡ occurrences b }
    ensures queued { (a b : List Placed) (conn : ℕ) → occurrences a ≡ occurrences b
        → queued conn (past_by a) ≡ queued conn (past_by b) }

    // For any openings there are those of the longer list.
    ensures shifts { (n : ℕ) (opened : List ℕ) → IsShifted n opened (shifted_by n opened) }
    ensures starts { (a b : List Placed) → occurrences a ≡ occurrences b
        → map (λ s. s.1) (starts a) ≡ map (λ s. s.1) (starts b) }
{
    pieces_law();
    starts_law();
}

/// What was queued by some events is the beginning of what is queued by those and later ones.
pub fn nothing_later_law()
    ensures { (plans : List PlanRecord) (opened : List ℕ) (later events : List Event) (a b : List Placed)
        (conn : ℕ) → Occurs plans opened events a → Occurs plans opened (later ++ events) b
        → IsPrefixOf (queued conn (past_by a)) (queued conn (past_by b)) }
{
    queue_law();
    requests_law();
}

/// After any events no call has more branches out than its plan's limit.
pub fn limit_law()
    ensures { (plans : List PlanRecord) (opened : List ℕ) (events : List Event) (occurred : List Placed)
        (id : CallId) (c : ArrivedCall) → Occurs plans opened events occurred → call id (past_by occurred) ≡ Some c
        → outs id (past_by occurred) ≤ c.plan.limit }
{
    out_limit_law();
}
