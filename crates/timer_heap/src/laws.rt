//! What the definitions come to, as facts on all timers. The functions do nothing.
ghost use Rattle.std.specs.Prelude.{◌≡◌, ◌∷◌, ◌<◌, ℕ, All, List, Some, None, true, false};
ghost use Rattle.timer_heap.specs.Timers.{Timer, TimerOp, Set, Stop, PopDue, IsFirstDue, is_set, popped, waiting};

/// A pop takes out the timer that is least by its time, and of equal times by the order of setting, among those whose
/// time is not above the moment. It takes out none only where each time is above it.
pub fn first_due_law()
    ensures found { (now : ℕ) (entries : List Timer) (e : Timer) → popped now entries ≡ Some e → IsFirstDue now entries e }
    ensures only { (now : ℕ) (entries : List Timer) (e : Timer) → IsFirstDue now entries e → popped now entries ≡ Some e }
    ensures none { (now : ℕ) (entries : List Timer) → popped now entries ≡ None → All (λ e. now < e.at) entries }
{}

/// A timer waits once it is set, and no longer once it is stopped or popped.
pub fn waiting_law()
    ensures set { (at id : ℕ) (past : List TimerOp) → is_set id (waiting (Set at id ∷ past)) ≡ true }
    ensures stopped { (id : ℕ) (past : List TimerOp) → is_set id (waiting (Stop id ∷ past)) ≡ false }
    ensures popped { (now : ℕ) (e : Timer) (past : List TimerOp) → popped now (waiting past) ≡ Some e → is_set e.id (waiting (PopDue now ∷ past)) ≡ false }
{}
