//! The worked rows of names. The functions do nothing.
ghost use Rattle.std.specs.Prelude.{◌≡◌, ◌∷◌, [], ℕ, List};
ghost use Rattle.std.specs.declared.net.socket_addr.SocketAddr.{SocketAddr};
ghost use Rattle.loop_model.specs.Found.{AreOfName, Asked, Found, IsAwaited, found_value};

/// What was found for a name are its addresses, in order; before there are none.
fn addresses_of_a_name()
    ensures none { (name : List ℕ) → AreOfName name [] [] }
    ensures both { (name : List ℕ) (a b : SocketAddr) → AreOfName name (a ∷ b ∷ []) (found_value name (a ∷ b ∷ []) ∷ []) }
{}

/// No name gets what was found for another, or its own in another order, or what nobody found.
fn other_addresses_of_a_name()
    ensures anothers { (name other : List ℕ) (a : SocketAddr) → (other ≡ name → ⊥) → AreOfName name (a ∷ []) (found_value other (a ∷ []) ∷ []) → ⊥ }
    ensures reversed { (name : List ℕ) (a b : SocketAddr) → (b ≡ a → ⊥) → AreOfName name (b ∷ a ∷ []) (found_value name (a ∷ b ∷ []) ∷ []) → ⊥ }
    ensures left_out { (name : List ℕ) (a b : SocketAddr) → AreOfName name (a ∷ []) (found_value name (a ∷ b ∷ []) ∷ []) → ⊥ }
    ensures unfound { (name : List ℕ) (a : SocketAddr) → AreOfName name (a ∷ []) [] → ⊥ }
{}

/// A name that was asked for is awaited until something is found for it, and again once it was asked for again.
fn names_that_are_awaited()
    ensures asked { (name : List ℕ) → IsAwaited name (Asked name ∷ []) }
    ensures beside { (name other : List ℕ) (a : SocketAddr) → (other ≡ name → ⊥) → IsAwaited name (Asked name ∷ Found (found_value other (a ∷ [])) ∷ []) }
    ensures again { (name : List ℕ) (a : SocketAddr) → IsAwaited name (Asked name ∷ Found (found_value name (a ∷ [])) ∷ Asked name ∷ []) }
    ensures found { (name : List ℕ) (a : SocketAddr) → IsAwaited name (Asked name ∷ Found (found_value name (a ∷ [])) ∷ []) → ⊥ }
    ensures no_such_name { (name : List ℕ) → IsAwaited name (Asked name ∷ Found (found_value name []) ∷ []) → ⊥ }
    ensures unasked { (name : List ℕ) → IsAwaited name [] → ⊥ }
    ensures anothers { (name other : List ℕ) → (other ≡ name → ⊥) → IsAwaited name (Asked other ∷ []) → ⊥ }
{}
