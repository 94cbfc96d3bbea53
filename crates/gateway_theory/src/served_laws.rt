//! What the gateway stands for after each event, by what a call makes of its value. The functions do nothing.
ghost use Rattle.std.specs.Prelude.{◌≡◌, ℕ, List, ◌++◌, ◌∷◌, [], ◌≤◌, false, take, Ok, Err, Some, true, length};
ghost use Rattle.gateway_theory.specs.declared.fault.StepFault.{StepFault};
ghost use Rattle.gateway_model.specs.declared.id.CallId.{CallId};
ghost use Rattle.gateway_model.specs.declared.event.Event.TheVariants.{Opening, Piece};
ghost use Rattle.gateway_model.specs.Events.{Occurs};
ghost use Rattle.gateway_theory.specs.Gateway.{kept_record, outs_of};
ghost use Rattle.gateway_theory.specs.Values.{GatewayValue, shown};
ghost use Rattle.gateway_model.specs.Known.{IsKnown, Shown, is_whole};
ghost use Rattle.gateway_model.specs.Past.{ArrivedCall, call, marked};
ghost use Rattle.gateway_model.specs.Queue.{IsPrefixOf, queued, queued_entries};
ghost use Rattle.gateway_model.specs.Run.{bytes_of};
ghost use Rattle.gateway_model.specs.CallRecord.{CallRecord};
ghost use Rattle.gateway_model.specs.Record.{is_decided, is_lawful};
ghost use Rattle.gateway_theory.specs.Served.{Adds, FedUpTo, HasConns, Served};
ghost use Rattle.gateway_model.specs.Starts.{Placed, occurrences};
ghost use Rattle.gateway_model.specs.History.{History};
ghost use Rattle.gateway_theory.specs.Serving.{IsServing};
ghost use Rattle.gateway_theory.specs.Steps.{Feeds, Opens};

use crate::request_laws::request_laws;
use http_pieces::laws::fresh_law;

/// An opening, whether it succeeds or not.
pub fn opening_law()
    ensures opened { (number : ℕ) (v w : GatewayValue) (h : History) → IsServing v → Opens v w number
        → Adds (h.opened ++ length h.events ∷ []) Opening h v w }
    ensures refused { (v : GatewayValue) (h : History) → IsServing v → Adds h.opened Opening h v v }
{
    fresh_law();
}

/// A piece that is fed in parts, from its beginning to its end or to a fault.
pub fn parts_law()
    ensures begins { (n : ℕ) (v : GatewayValue) (h : History) → HasConns v h.opened h.events → FedUpTo n [] h v v }
    ensures goes_on { (n m : ℕ) (p q : List ℕ) (u v w : GatewayValue) (h : History) → IsServing v → FedUpTo n p h u v
        → Feeds n q v w (Ok m) → FedUpTo n (p ++ take m q) h u w }
    ensures ends { (n : ℕ) (fault : StepFault) (p q : List ℕ) (u v w : GatewayValue) (h : History)
        → IsServing v → FedUpTo n p h u v
        → Feeds n q v w (Err fault) → Adds h.opened (Piece n (p ++ q)) h u w }
{
    request_laws();
}

/// What is kept of a call is what has occurred of it: one that can be decided, of a connection that is not broken, has
/// a lawful record, which is not decided; and no call has more branches out than its plan's limit.
pub fn calls_law()
    ensures records { (id : CallId) (kept : CallRecord) (v : GatewayValue) (h : History) (occurred : List Placed)
        → Served v h → Occurs v.plans h.opened h.events occurred → is_whole id.conn (shown v) ≡ true
        → kept_record id v ≡ Some kept → (is_lawful kept ≡ true) × (is_decided kept ≡ false) }
    ensures limit { (id : CallId) (a : ArrivedCall) (v : GatewayValue) (h : History) (occurred : List Placed)
        → Served v h → Occurs v.plans h.opened h.events occurred → call id (marked (occurrences occurred)) ≡ Some a
        → outs_of id v ≤ a.plan.limit }
{}

/// Whatever events a gateway stands for, this is known of what is seen of it.
pub fn known_law()
    ensures { (v : GatewayValue) (h : History) (occurred : List Placed) → Served v h → Occurs v.plans h.opened h.events occurred
        → IsKnown (shown v) h occurred }
{}

/// What was taken of an open connection begins what is queued for it by all that occurred, also if it broke.
pub fn begins_law()
    ensures taken { (s : Shown) (h : History) (occurred : List Placed) → IsKnown s h occurred → (c : ℕ) → s.is_open c ≡ true
        → IsPrefixOf (h.taken c) (queued_entries c (marked (occurrences occurred))) }
    ensures bytes { (s : Shown) (h : History) (occurred : List Placed) → IsKnown s h occurred → (c : ℕ) → s.is_open c ≡ true
        → IsPrefixOf (bytes_of (h.taken c)) (queued c (marked (occurrences occurred))) }
{}
