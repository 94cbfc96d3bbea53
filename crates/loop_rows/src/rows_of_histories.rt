//! The worked rows of how a history goes on. The functions do nothing.
ghost use Rattle.std.specs.Prelude.{◌≡◌, ◌∷◌, ◌++◌, [], ℕ, List, None, Some, true};
ghost use Rattle.connect_codec.specs.declared.answer.Outcome.{Outcome};
ghost use Rattle.gateway_model.specs.Events.{Before};
ghost use Rattle.gateway_model.specs.History.{History, after_event, after_jobs, after_opening, no_history};
ghost use Rattle.gateway_model.specs.Job.{JobValue};
ghost use Rattle.gateway_model.specs.Occurrence.{Break, Drain as Drained, Moment as Came};
ghost use Rattle.gateway_model.specs.Past.{is_broken, marked};
ghost use Rattle.gateway_model.specs.Queue.{queued_entries};
ghost use Rattle.gateway_model.specs.Starts.{Placed, occurrences};
ghost use Rattle.gateway_model.specs.declared.event.Event.{Event};
ghost use Rattle.gateway_model.specs.declared.event.Event.TheVariants.{Closing, Drain, HangUp, Moment, Opening, Piece};
ghost use Rattle.gateway_theory.specs.Served.{Lives};
ghost use Rattle.gateway_theory.specs.Values.{GatewayValue, shown};
ghost use Rattle.loop_model.specs.Explained.{Explains, LoopValue};
ghost use Rattle.loop_model.specs.Histories.{Extends, LivesMore};
ghost use Rattle.loop_rows.specs.LoopRows.{after};

/// A history goes on with more events behind those that had come, with openings that succeed among them, and with jobs.
fn histories_that_go_on()
    ensures none { Extends no_history no_history }
    ensures more { Extends (after (Moment 3 ∷ [])) (after (HangUp 0 ∷ Moment 3 ∷ [])) }
    ensures opening { Extends no_history (after_opening no_history) }
    ensures jobs { (j : JobValue) → Extends no_history (after_jobs (j ∷ []) no_history) }
{}

/// It is not begun anew, told in another order, or changed: no event is left out or put between, no opening that was
/// refused succeeds later, and no job is taken back.
fn histories_that_do_not()
    ensures anew { Extends (after (Moment 3 ∷ [])) no_history → ⊥ }
    ensures order { Extends (after (HangUp 0 ∷ HangUp 1 ∷ [])) (after (HangUp 1 ∷ HangUp 0 ∷ [])) → ⊥ }
    ensures left_out { Extends (after (Moment 3 ∷ Drain ∷ [])) (after (Moment 3 ∷ [])) → ⊥ }
    ensures between { Extends (after (Moment 3 ∷ [])) (after (Moment 3 ∷ Drain ∷ [])) → ⊥ }
    ensures refused { Extends (after_event Opening no_history) (after_opening no_history) → ⊥ }
    ensures taken_back { (j : JobValue) → Extends (after_jobs (j ∷ []) no_history) no_history → ⊥ }
{}

/// What was lived is not told anew: where no event came nothing more was lived. When one came, no connection breaks by
/// an event that had come, and none that broke is whole again.
fn lives_that_are_not_told_anew()
    ensures nothing { (w : GatewayValue) (h : History) (lived : List Placed)
        → (m : LivesMore h w h lived) → m.later ≡ [] }
    ensures broken { (w : GatewayValue) (k : History)
        → (m : LivesMore (after (Moment 3 ∷ [])) w k ((2, Came 3) ∷ []))
        → m.later ++ (2, Came 3) ∷ [] ≡ (3, Drained) ∷ (2, Break 0) ∷ (2, Came 3) ∷ [] → ⊥ }
    ensures whole { (w : GatewayValue) (k : History)
        → (m : LivesMore (after (Moment 3 ∷ [])) w k ((2, Break 0) ∷ (2, Came 3) ∷ []))
        → m.later ++ (2, Break 0) ∷ (2, Came 3) ∷ [] ≡ (3, Drained) ∷ (2, Came 3) ∷ [] → ⊥ }
{}

/// What was lived is known: by that an open connection is broken or is not, and its queue is that.
fn lives_that_are_known()
    ensures broken { (u : Outcome) (h : History) (l : LoopValue) → Explains u h l
        → (lived : List Placed) → Lives l.core h lived → (c : ℕ) → (shown l.core).is_open c ≡ true
        → (shown l.core).is_broken c ≡ is_broken c (marked (occurrences lived)) }
    ensures queued { (u : Outcome) (h : History) (l : LoopValue) → Explains u h l
        → (lived : List Placed) → Lives l.core h lived → (c : ℕ) → (shown l.core).is_open c ≡ true
        → h.taken c ++ (shown l.core).untaken c ≡ queued_entries c (marked (occurrences lived)) }
{}
