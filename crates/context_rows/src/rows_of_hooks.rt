//! The worked row: what the definitions give for it, operation by operation, newest first. The functions do nothing.
ghost use Rattle.std.specs.Prelude.{◌≡◌, true, false, [], ◌∷◌, Some, None};
ghost use Rattle.after_funcs.specs.Hooks.{Fire, RunNext, Stop, registered, due, is_waiting, first_due};
ghost use Rattle.context_rows.specs.HookRows.{three, one_done};

/// y is stopped, the context of x ends, x is called, and z still waits.
fn three_hooks<H>()
    ensures registered { (x y z : H) → registered (three x y z) ≡ 3 }
    ensures y_waits { (x y z : H) → is_waiting 1 (three x y z) ≡ true }
    ensures y_is_stopped { (x y z : H) → is_waiting 1 (Stop 1 ∷ three x y z) ≡ false }
    ensures none_is_due { (x y z : H) → first_due (due (Stop 1 ∷ three x y z)) ≡ None }
    ensures x_waits_no_more { (x y z : H) → is_waiting 0 (Fire (5, 0) ∷ Stop 1 ∷ three x y z) ≡ false }
    ensures x_is_due { (x y z : H) → due (Fire (5, 0) ∷ Stop 1 ∷ three x y z) ≡ record { id = 0; ctx = (5, 0); hook = x } ∷ [] }
    ensures x_was_called { (x y z : H) → due (RunNext ∷ Fire (5, 0) ∷ Stop 1 ∷ three x y z) ≡ [] }
    ensures z_waits { (x y z : H) → is_waiting 2 (RunNext ∷ Fire (5, 0) ∷ Stop 1 ∷ three x y z) ≡ true }
{}

/// A hook on a context that has ended is due at once, and before those that a later fire makes due.
fn done_at_once<H>()
    ensures at_once { (x y : H) → first_due (due (one_done x y)) ≡ Some (1, (6, 0)) }
    ensures first { (x y : H) → first_due (due (Fire (5, 0) ∷ one_done x y)) ≡ Some (1, (6, 0)) }
    ensures then { (x y : H) → first_due (due (RunNext ∷ Fire (5, 0) ∷ one_done x y)) ≡ Some (0, (5, 0)) }
{}
