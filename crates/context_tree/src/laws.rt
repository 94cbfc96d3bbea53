//! What the definitions come to, as facts on all contexts. The functions do nothing.
ghost use Rattle.std.specs.Prelude.{◌≡◌, ◌∷◌, [], ◌<◌, ◌≤◌, ℕ, List, Option, None, Some, IfSome, true, false, is_none, is_some};
ghost use Rattle.std.specs.Option.{option_map_or};
ghost use Rattle.context_tree.specs.declared.error.CtxErr.TheVariants.{DeadlineExceeded};
ghost use Rattle.context_tree.specs.declared.node.Kind.{Kind};
ghost use Rattle.context_tree.specs.declared.node.Links.{Links};
ghost use Rattle.context_tree.specs.Context.{Id, same, TreeOp, Makes, Advances, Ended, HasChild, makes, held, parent_of, follows, line, chain, has_cancel, ending, deadline, value, handed};
ghost use Rattle.context_tree.specs.Frames.{is_due, was_made, makes_or_releases, releases, may_end};
ghost use Rattle.context_tree.specs.Links.{AreLinked, child_at};
ghost use Rattle.context_tree.specs.Tree.{TreeValue, StandsFor, IsLawful, is_live};

/// What ended a context first stays, whatever comes later.
pub fn first_end_law<C, V>()
    ensures { (op : TreeOp C V) (past : List (TreeOp C V)) (x : Id) (kind : Kind C V) (e : Ended C) → IsLawful (op ∷ past) → held x past ≡ Some kind
        → ending x past ≡ Some e → ending x (op ∷ past) ≡ Some e }
{}

/// A context does not outlive the one that it follows: its parent, but of one made without cancel. So it does not
/// outlive any on its chain that can be cancelled.
pub fn child_law<C, V>()
    ensures parent { (past : List (TreeOp C V)) (x p : Id) (kind : Kind C V) (e : Ended C) → IsLawful past → held x past ≡ Some kind → follows kind ≡ Some p
        → ending p past ≡ Some e → is_some (ending x past) ≡ true }
    ensures chain { (past : List (TreeOp C V)) (x t : Id) (kind : Kind C V) → IsLawful past → held x past ≡ Some kind
        → has_cancel t (chain x past) ≡ true → is_some (ending t past) ≡ true → is_some (ending x past) ≡ true }
{}

/// The deadline of a context is not later than that of the one that it follows.
pub fn deadline_law<C, V>()
    ensures { (past : List (TreeOp C V)) (x p : Id) (kind : Kind C V) (at : ℕ) → IsLawful past → held x past ≡ Some kind → follows kind ≡ Some p
        → deadline p past ≡ Some at → (own : ℕ) × (deadline x past ≡ Some own) × (own ≤ at) }
{}

/// A moment ends a context that is not ended exactly where it has reached its deadline, and the error says so.
pub fn expiry_law<C, V>()
    ensures exactly { (past : List (TreeOp C V)) (x : Id) (now : ℕ) → ending x past ≡ None
        → is_some (ending x (Advances now ∷ past)) ≡ is_due now (deadline x past) }
    ensures error { (past : List (TreeOp C V)) (x : Id) (now : ℕ) → ending x past ≡ None
        → IfSome (ending x (Advances now ∷ past)) (λ e. e.error ≡ DeadlineExceeded) }
{}

/// A new id was never given before: no context was made, is held, ended or handed out under it, and none derives from
/// it.
pub fn new_law<C, V>()
    ensures never_given { (past : List (TreeOp C V)) (id : Id) (kind : Kind C V) (now : ℕ) → IsLawful (Makes id kind now ∷ past) → was_made id past ≡ false }
    ensures unheld { (past : List (TreeOp C V)) (id : Id) (kind : Kind C V) (now : ℕ) → IsLawful (Makes id kind now ∷ past) → held id past ≡ None }
    ensures unended { (past : List (TreeOp C V)) (id : Id) (kind : Kind C V) (now : ℕ) → IsLawful (Makes id kind now ∷ past) → ending id past ≡ None }
    ensures not_handed { (past : List (TreeOp C V)) (id : Id) (kind : Kind C V) (now : ℕ) → IsLawful (Makes id kind now ∷ past) → handed id past ≡ false }
    ensures childless { (past : List (TreeOp C V)) (id : Id) (kind : Kind C V) (now : ℕ) → IsLawful (Makes id kind now ∷ past) → HasChild id (Makes id kind now ∷ past) → ⊥ }
{}

/// Contexts count from 0 by their numbers, and no two have one number.
pub fn number_law<C, V>()
    ensures below { (past : List (TreeOp C V)) (x : Id) → IsLawful past → was_made x past ≡ true → x.0 < makes past }
    ensures apart { (past : List (TreeOp C V)) (x y : Id) → IsLawful past → was_made x past ≡ true → was_made y past ≡ true → x.0 ≡ y.0 → x ≡ y }
    ensures held { (past : List (TreeOp C V)) (x : Id) (kind : Kind C V) → held x past ≡ Some kind → was_made x past ≡ true }
    ensures same { (x y : Id) → same x y ≡ true → x ≡ y }
    ensures itself { (x : Id) → same x x ≡ true }
{}

/// The line of parents of a context that is held, and its chain, begin with itself and go on with those of its parent,
/// which is held too and was made before it.
pub fn chain_law<C, V>()
    ensures line { (past : List (TreeOp C V)) (x : Id) (kind : Kind C V) → IsLawful past → held x past ≡ Some kind
        → line x past ≡ (x, kind) ∷ option_map_or (λ p. line p past) (parent_of kind) [] }
    ensures chain { (past : List (TreeOp C V)) (x : Id) (kind : Kind C V) → IsLawful past → held x past ≡ Some kind
        → chain x past ≡ (x, kind) ∷ option_map_or (λ p. chain p past) (follows kind) [] }
    ensures parent { (past : List (TreeOp C V)) (x p : Id) (kind : Kind C V) → IsLawful past → held x past ≡ Some kind → parent_of kind ≡ Some p
        → (k : Kind C V) × (held p past ≡ Some k) × (p.0 < x.0) }
{}

/// What was handed out is ended, also after its release.
pub fn handed_law<C, V>()
    ensures { (past : List (TreeOp C V)) (x : Id) → IsLawful past → handed x past ≡ true → is_some (ending x past) ≡ true }
{}

/// An operation touches the context that it makes or releases, and the endings. It leaves which others are held, and
/// the deadline and the values of each that was held; what ended each stays too, but at a cancel or a moment.
pub fn frame_law<C, V>()
    ensures held { (op : TreeOp C V) (past : List (TreeOp C V)) (x : Id) → makes_or_releases x op ≡ false → held x (op ∷ past) ≡ held x past }
    ensures stays { (op : TreeOp C V) (past : List (TreeOp C V)) (x : Id) (kind : Kind C V) → IsLawful (op ∷ past) → held x past ≡ Some kind
        → releases x op ≡ false → held x (op ∷ past) ≡ Some kind }
    ensures deadline { (op : TreeOp C V) (past : List (TreeOp C V)) (x : Id) (kind : Kind C V) → IsLawful (op ∷ past) → held x past ≡ Some kind
        → deadline x (op ∷ past) ≡ deadline x past }
    ensures value { (op : TreeOp C V) (past : List (TreeOp C V)) (x : Id) (kind : Kind C V) (key : ℕ) → IsLawful (op ∷ past) → held x past ≡ Some kind
        → value x key (op ∷ past) ≡ value x key past }
    ensures ending { (op : TreeOp C V) (past : List (TreeOp C V)) (x : Id) (kind : Kind C V) → IsLawful (op ∷ past) → held x past ≡ Some kind
        → may_end op ≡ false → ending x (op ∷ past) ≡ ending x past }
{}

/// The slots of a tree show which contexts that are held are not ended.
pub fn live_law<C, V>()
    ensures { (t : TreeValue C V) (past : List (TreeOp C V)) (x : Id) (kind : Kind C V) → StandsFor t past → held x past ≡ Some kind
        → is_live t.slots x ≡ is_none (ending x past) }
{}

/// The links of a tree make a list of the children of each: from the first on each child is reached, and nothing else,
/// and a later one was made later, so each is reached once.
pub fn links_law()
    ensures all { (up : ℕ → Option ℕ) (number : ℕ → ℕ) (links : ℕ → Links) → AreLinked up number links
        → (k j : ℕ) → up j ≡ Some k → (i : ℕ) × (child_at links k i ≡ Some j) }
    ensures only { (up : ℕ → Option ℕ) (number : ℕ → ℕ) (links : ℕ → Links) → AreLinked up number links
        → (k i j : ℕ) → child_at links k i ≡ Some j → up j ≡ Some k }
    ensures once { (up : ℕ → Option ℕ) (number : ℕ → ℕ) (links : ℕ → Links) → AreLinked up number links
        → (k i l a b : ℕ) → i < l → child_at links k i ≡ Some a → child_at links k l ≡ Some b → number a < number b }
{}
