//! What the definitions come to, as facts on everything that may occur. The functions do nothing.
ghost use Rattle.std.specs.Prelude.{◌≡◌, ℕ, filter, true, false, ◌<◌, ◌≤◌, ◌++◌, ◌∷◌, Some, replicate, List, length, map};
ghost use Rattle.gateway_model.specs.declared.id.CallId.{CallId};
ghost use Rattle.gateway_model.specs.Occurrence.{Occurrence, Result};
ghost use Rattle.gateway_model.specs.declared.call_event.CallEvent.{CallEvent};
ghost use Rattle.gateway_model.specs.Past.{Mark, Past, ArrivedCall, call, decided, arrivals, is_broken, is_out, how_seen, outs, call_id, mark_of, marked, past_of};
ghost use Rattle.gateway_model.specs.Known.{is_of};
ghost use Rattle.gateway_model.specs.Own.{is_visible, own, without_breaks};
ghost use Rattle.gateway_model.specs.Decided.{IsDecidedAt};
ghost use Rattle.connect_codec.specs.declared.answer.Outcome.{Outcome};
ghost use Rattle.gateway_model.specs.Starts.{Placed, jobs, jobs_by, occurrences, starts};
ghost use Rattle.gateway_theory.specs.Starting.{job_started};
ghost use Rattle.gateway_model.specs.declared.seen.Seen.{Seen};
ghost use Rattle.gateway_model.specs.declared.entry.ReplyEntry.{ReplyEntry};
ghost use Rattle.gateway_model.specs.CallRecord.{CallRecord};
ghost use Rattle.gateway_model.specs.Record.{is_lawful, is_decided};
ghost use Rattle.gateway_model.specs.Queue.{entry, queued, queued_entries, IsPrefixOf};
ghost use Rattle.gateway_theory.specs.Replies.{replies};

use crate::request_laws::request_laws;

/// What a request is answered by stays, whatever comes later.
pub fn entry_law()
    ensures decided_stays { (id : CallId) (m : Mark) (past : Past) (e : CallEvent) → decided id past ≡ Some e → decided id (m ∷ past) ≡ Some e }
    ensures entry_stays { (id : CallId) (m : Mark) (past : Past) (x : ReplyEntry) → entry id past ≡ Some x → entry id (m ∷ past) ≡ Some x }
{}

/// The record of each decided call is lawful, and decided.
pub fn record_law()
    ensures { (id : CallId) (occurred : List Occurrence) (r : CallRecord) → entry id (marked occurred) ≡ Some (ReplyEntry.Call r)
        → (is_lawful r ≡ true) × (is_decided r ≡ true) }
{}

/// What was queued for a connection stays the beginning of what is queued, and each request has one reply at most.
pub fn queue_law()
    ensures nothing_later { (conn : ℕ) (later past : Past) → IsPrefixOf (queued conn past) (queued conn (later ++ past)) }
    ensures one_reply { (conn : ℕ) (past : Past) → length (replies conn past) ≤ arrivals conn past }
{}

/// Results of a branch that is not out change nothing, however many they are.
pub fn unknown_law()
    ensures seen_stays { (id : CallId) (branch : ℕ) (outcome : Outcome) (occurred : List Occurrence) → how_seen id branch (marked occurred) ≡ Seen.Unknown
        → (n : ℕ) (other : CallId) (i : ℕ) → how_seen other i (marked (replicate n (Result id branch outcome) ++ occurred)) ≡ how_seen other i (marked occurred) }
    ensures replies_stay { (id : CallId) (branch : ℕ) (outcome : Outcome) (occurred : List Occurrence) → how_seen id branch (marked occurred) ≡ Seen.Unknown
        → (n conn : ℕ) → replies conn (marked (replicate n (Result id branch outcome) ++ occurred)) ≡ replies conn (marked occurred) }
{}

/// No call has more branches out than its plan's limit.
pub fn limit_law()
    ensures { (id : CallId) (occurred : List Occurrence) (c : ArrivedCall) → call id (marked occurred) ≡ Some c → outs id (marked occurred) ≤ c.plan.limit }
{}

/// A call is decided by the event of the least place that decides it, in the finished list of what occurs.
pub fn decided_law()
    ensures found { (occurred : List Occurrence) (id : CallId) (e : CallEvent) → decided id (past_of occurred) ≡ Some e
        → (t : ℕ) × (t < length occurred) × IsDecidedAt id occurred t e }
    ensures only { (occurred : List Occurrence) (id : CallId) (t : ℕ) (e : CallEvent) → IsDecidedAt id occurred t e → decided id (past_of occurred) ≡ Some e }
{}

/// The jobs that start are those of what occurred, in their order.
pub fn starts_law()
    ensures { (placed : List Placed) → map job_started (starts placed) ≡ jobs (marked (occurrences placed)) }
{}

/// What is queued for a connection, which of its branches are out, how its results are seen and what starts for it are
/// by what is visible to it: moments, the drain, and what names it.
pub fn own_law()
    ensures queue { (conn : ℕ) (occurred : List Occurrence)
        → queued_entries conn (marked occurred) ≡ queued_entries conn (marked (own conn occurred)) }
    ensures entries { (conn k : ℕ) (occurred : List Occurrence)
        → entry (call_id conn k) (marked occurred) ≡ entry (call_id conn k) (marked (own conn occurred)) }
    ensures outs { (conn k i : ℕ) (occurred : List Occurrence)
        → is_out (call_id conn k) i (marked occurred) ≡ is_out (call_id conn k) i (marked (own conn occurred)) }
    ensures seen { (conn k i : ℕ) (occurred : List Occurrence)
        → how_seen (call_id conn k) i (marked occurred) ≡ how_seen (call_id conn k) i (marked (own conn occurred)) }
    ensures starts { (conn : ℕ) (occurred : List Occurrence)
        → filter (is_of conn) (jobs (marked occurred)) ≡ filter (is_of conn) (jobs (marked (own conn occurred))) }
    ensures starting { (conn : ℕ) (o : Occurrence) (before : List Occurrence) → is_visible conn o ≡ true
        → jobs_by o (mark_of (marked before) o) (marked before) ≡ jobs_by o (mark_of (marked (own conn before)) o) (marked (own conn before)) }
{}

/// For a connection that did not break it is as if none had. Of one that broke, what is queued and
/// what starts begin what were queued and would start if none had.
pub fn breaks_law()
    ensures unbroken { (conn : ℕ) (occurred : List Occurrence) → is_broken conn (marked occurred) ≡ false
        → queued_entries conn (marked occurred) ≡ queued_entries conn (marked (without_breaks occurred)) }
    ensures starts { (conn : ℕ) (occurred : List Occurrence) → is_broken conn (marked occurred) ≡ false
        → filter (is_of conn) (jobs (marked occurred)) ≡ filter (is_of conn) (jobs (marked (without_breaks occurred))) }
    ensures prefix { (conn : ℕ) (occurred : List Occurrence)
        → IsPrefixOf (queued_entries conn (marked occurred)) (queued_entries conn (marked (without_breaks occurred))) }
    ensures first_starts { (conn : ℕ) (occurred : List Occurrence)
        → IsPrefixOf (filter (is_of conn) (jobs (marked occurred))) (filter (is_of conn) (jobs (marked (without_breaks occurred)))) }
{}
