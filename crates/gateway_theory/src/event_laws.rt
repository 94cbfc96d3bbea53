//! What lists of events come to where a piece is cut, or one more opening succeeds. The functions do nothing.
ghost use Rattle.std.specs.Prelude.{◌≡◌, ◌↔◌, ℕ, true, ◌<◌, ◌≤◌, ◌++◌, ◌∷◌, [], List, length};
ghost use Rattle.call_plan.specs.Plan.{PlanRecord};
ghost use Rattle.gateway_model.specs.declared.event.Event.{Event};
ghost use Rattle.gateway_model.specs.Events.{IsShifted, Occurs, connections, is_open, open_connections, succeeds};
ghost use Rattle.gateway_model.specs.declared.event.Event.TheVariants.{Piece};
ghost use Rattle.gateway_model.specs.Starts.{Placed, occurrences};

use crate::request_laws::request_laws;

/// Where a piece comes as two, the same occurs, whatever came before and comes later.
pub fn pieces_law()
    ensures { (plans : List PlanRecord) (opened shifted : List ℕ) (later before : List Event) (conn : ℕ)
        (p q : List ℕ) (a b : List Placed) → IsShifted (length before) opened shifted
        → Occurs plans opened (later ++ Piece conn (p ++ q) ∷ before) a
        → Occurs plans shifted (later ++ Piece conn q ∷ Piece conn p ∷ before) b
        → occurrences a ≡ occurrences b }
{
    request_laws();
}

/// One more opening that succeeds, behind some events and behind all other openings that do, changes nothing of what
/// these events come to.
pub fn openings_law()
    ensures occurs { (plans : List PlanRecord) (opened : List ℕ) (place : ℕ) (es : List Event) (occurred : List Placed)
        → ((other : ℕ) → succeeds opened other ≡ true → other < place) → length es ≤ place
        → Occurs plans (opened ++ place ∷ []) es occurred ↔ Occurs plans opened es occurred }
    ensures connections { (opened : List ℕ) (place : ℕ) (es : List Event)
        → ((other : ℕ) → succeeds opened other ≡ true → other < place) → length es ≤ place
        → connections (opened ++ place ∷ []) es ≡ connections opened es }
    ensures is_open { (opened : List ℕ) (place : ℕ) (es : List Event)
        → ((other : ℕ) → succeeds opened other ≡ true → other < place) → length es ≤ place
        → (c : ℕ) → is_open (opened ++ place ∷ []) c es ≡ is_open opened c es }
    ensures open_connections { (opened : List ℕ) (place : ℕ) (es : List Event)
        → ((other : ℕ) → succeeds opened other ≡ true → other < place) → length es ≤ place
        → open_connections (opened ++ place ∷ []) es ≡ open_connections opened es }
{}
