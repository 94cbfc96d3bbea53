//! The worked rows of a connection's step. The functions do nothing.
ghost use Rattle.std.specs.Prelude.{◌≡◌, ◌∷◌, [], None, Some, true, false};
ghost use Rattle.http_pieces.specs.declared.refusal.Refusal.{Refusal};
ghost use Rattle.connect_codec.specs.declared.answer.Outcome.{Outcome};
ghost use Rattle.gateway_model.specs.declared.entry.ReplyEntry.TheVariants as entries;
ghost use Rattle.gateway_model.specs.declared.call_event.CallEvent.TheVariants as events;
ghost use Rattle.gateway_model.specs.Occurrence.{Break, Closing, Comes, Coming, Drain, HangUp, Refused, Result};
ghost use Rattle.gateway_model.specs.Past.{call_id};
ghost use Rattle.gateway_theory.specs.Step.{entry_with};
ghost use Rattle.gateway_theory.specs.Values.{Live, call_state, not_kept};
ghost use Rattle.gateway_theory.specs.Connection.{Now, all_after, step, stepped, went};
ghost use Rattle.gateway_theory.specs.Rows.{one_out};

/// What comes gets a slot, which a refusal fills at once. On a connection that is broken nothing comes.
fn what_comes()
    ensures refused { (n : Now) (r : Refusal) → (step n (Comes 0 (Refused r)) (not_kept false 0)).conn.slots ≡ Some (entries.Refused r) ∷ [] }
    ensures broken { (n : Now) (x : Coming) → step n (Comes 0 x) (went n (Break 0) (one_out None)) ≡ stepped (went n (Break 0) (one_out None)) [] }
{}

/// The drain, or its own hang-up, ends its call, and the slot has the entry. That of another changes nothing.
fn what_ends()
    ensures drained { (n : Now) (l : Live) → (step n Drain (one_out (Some l))).conn.slots ≡ Some (entry_with events.Drained l) ∷ [] }
    ensures over { (n : Now) (l : Live) → (step n Drain (one_out (Some l))).conn.calls 0 ≡ call_state (true ∷ []) None }
    ensures hung_up { (n : Now) (l : Live) → (step n (HangUp 0) (one_out (Some l))).conn.slots ≡ Some (entry_with events.HungUp l) ∷ [] }
    ensures anothers { (n : Now) (l : Live) → all_after n (HangUp 5) (λ c. one_out (Some l)) 0 ≡ one_out (Some l) }
{}

/// Once it breaks, or is closed, its call can't be decided; but its branch stays out. What was queued stays, until it
/// is closed.
fn what_shuts()
    ensures broken { (n : Now) (l : Live) → (step n (Break 0) (one_out (Some l))).conn ≡ record (one_out None) { broken = true } }
    ensures closed { (n : Now) (l : Live) → (step n (Closing 0) (one_out (Some l))).conn ≡ record (one_out None) { slots = []; closed = true } }
    ensures both { (n : Now) (l : Live) → (step n (Closing 0) (went n (Break 0) (one_out (Some l)))).conn ≡ record (one_out None) { slots = []; closed = true } }
{}

/// A result of a branch of a call that was decided brings the branch back, and starts none.
fn what_is_late()
    ensures back { (n : Now) (o : Outcome) → (step n (Result (call_id 0 0) 0 o) (one_out None)).conn.calls 0 ≡ call_state (false ∷ []) None }
    ensures no_reply { (n : Now) (o : Outcome) → (step n (Result (call_id 0 0) 0 o) (one_out None)).conn.slots ≡ None ∷ [] }
    ensures no_jobs { (n : Now) (o : Outcome) → (step n (Result (call_id 0 0) 0 o) (one_out None)).jobs ≡ [] }
{}
