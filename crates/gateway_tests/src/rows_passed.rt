//! The worked rows of the fields that are passed on. The functions do nothing.
ghost use Rattle.std.specs.Prelude.{◌≡◌, ◌∷◌, [], codes};
ghost use Rattle.gateway_model.specs.Occurrence.{Opening};
ghost use Rattle.gateway_tests.specs.Rows.{answers, asks_with, passed_by, quote, quote_passing};

/// Each branch's backend is sent the fields that this branch passes on, in the order of the request; a branch that
/// starts later those of the same request.
fn each_its_own()
    ensures { passed_by (Opening ∷ asks_with quote_passing ((codes "x_tenant", codes "7") ∷ (codes "Authorization", codes "Bearer a") ∷ []) 0
        ∷ asks_with quote_passing [] 1 ∷ answers 0 1 (codes "2") ∷ [])
        ≡ ((codes "X-Tenant", codes "7") ∷ (codes "authorization", codes "Bearer a") ∷ []) ∷ [] ∷ [] ∷ []
        ∷ ((codes "authorization", codes "Bearer a") ∷ []) ∷ [] }
{}

/// A field that stands twice is sent twice, and one that the request's `Connection` names is not sent.
fn twice_or_not()
    ensures { passed_by (Opening ∷ asks_with quote_passing ((codes "Authorization", codes "a") ∷ (codes "Connection", codes "x-tenant") ∷ (codes "X-Tenant", codes "7")
        ∷ (codes "AUTHORIZATION", codes "b") ∷ []) 0 ∷ [])
        ≡ ((codes "authorization", codes "a") ∷ (codes "authorization", codes "b") ∷ []) ∷ [] ∷ [] }
{}

/// A plan whose branches pass on nothing sends none of them.
fn none_without_the_key()
    ensures { passed_by (Opening ∷ asks_with quote ((codes "Authorization", codes "Bearer a") ∷ []) 0 ∷ []) ≡ [] ∷ [] ∷ [] }
{}
