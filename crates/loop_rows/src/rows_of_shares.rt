//! The worked rows of the shares that jobs have of streams. The functions do nothing.
ghost use Rattle.std.specs.Prelude.{◌≡◌, ◌∷◌, [], ℕ, Bool, true, false, List, Option, Some, None};
ghost use Rattle.std.specs.declared.net.socket_addr.SocketAddr.{SocketAddr};
ghost use Rattle.connect_codec.specs.declared.answer.Outcome.{Outcome};
ghost use Rattle.gateway_model.specs.Job.{JobValue};
ghost use Rattle.loop_model.specs.Asking.{ended_value};
ghost use Rattle.loop_model.specs.Shares.{IsWhole};
ghost use Rattle.loop_model.specs.Streams.{kept_value, share_value, stream_value};
ghost use Rattle.loop_model.specs.Whole.{AreShared};
ghost use Rattle.loop_model.specs.declared.manner.Manner.{Manner};
ghost use Rattle.loop_rows.specs.LoopRows.{asked_over, asking, ended, ended_over, job, kept_for};
ghost use Rattle.wires.specs.Turns.{BeginsQuietly, Came, Quiet, Turn, Went};

/// A job that ended has left its stream with its share, and one without a stream has left none.
fn shares_of_streams()
    ensures none { (m : Manner) → AreShared m [] [] [] [] }
    ensures one { (m : Manner) (a : SocketAddr) (j : JobValue) (turns : List Turn) (o : Option Outcome)
        → AreShared m [] (ended a j [] turns o ∷ []) [] (stream_value a (share_value j turns o ∷ []) [] ∷ []) }
    ensures no_stream { (m : Manner) (j : JobValue) (o : Option Outcome) → AreShared m [] (ended_value (asking j) o ∷ []) [] [] }
{}

/// No share is nobody's, lost, another job's, told with another outcome, or of a stream to another address; and no
/// stream that was left has none. Where no streams are kept, none has two, and nothing is done at one that was left.
fn other_shares()
    ensures nobodys { (m : Manner) (a : SocketAddr) (j : JobValue) (turns : List Turn) (o : Option Outcome)
        → AreShared m [] [] [] (stream_value a (share_value j turns o ∷ []) [] ∷ []) → ⊥ }
    ensures lost { (m : Manner) (a : SocketAddr) (j : JobValue) (turns : List Turn) (o : Option Outcome)
        → AreShared m [] (ended a j [] turns o ∷ []) [] [] → ⊥ }
    ensures anothers { (m : Manner) (a : SocketAddr) (turns : List Turn) (o : Option Outcome)
        → AreShared m [] (ended a (job 0 1 2) [] turns o ∷ []) [] (stream_value a (share_value (job 0 1 3) turns o ∷ []) [] ∷ []) → ⊥ }
    ensures outcome { (m : Manner) (a : SocketAddr) (j : JobValue) (turns : List Turn) (o : Outcome)
        → AreShared m [] (ended a j [] turns None ∷ []) [] (stream_value a (share_value j turns (Some o) ∷ []) [] ∷ []) → ⊥ }
    ensures elsewhere { (m : Manner) (a b : SocketAddr) (is_first : SocketAddr → Bool) (j : JobValue) (turns : List Turn) (o : Option Outcome)
        → is_first a ≡ true → is_first b ≡ false
        → AreShared m [] (ended a j [] turns o ∷ []) [] (stream_value b (share_value j turns o ∷ []) [] ∷ []) → ⊥ }
    ensures unused { (m : Manner) (a : SocketAddr) → AreShared m [] [] [] (stream_value a [] [] ∷ []) → ⊥ }
    ensures two { (m : Manner) (a : SocketAddr) (i j : JobValue) (first last : List Turn) (o p : Option Outcome) → m.keeps ≡ false
        → AreShared m [] (ended a i [] first o ∷ ended a j [] last p ∷ []) [] (stream_value a (share_value i first o ∷ share_value j last p ∷ []) [] ∷ []) → ⊥ }
    ensures since { (m : Manner) (a : SocketAddr) (j : JobValue) (turns : List Turn) (o : Option Outcome) (turn : Turn) → m.keeps ≡ false
        → AreShared m [] (ended a j [] turns o ∷ []) [] (stream_value a (share_value j turns o ∷ []) (turn ∷ []) ∷ []) → ⊥ }
{}

/// A job that had its whole reply may leave its stream to be kept, and reads since may have said that nothing was
/// there. The next job of its address may go over it, and leave it to be kept again, or not, whatever came of it. One
/// that was kept may be closed, whatever was read since.
fn streams_that_are_kept()
    ensures kept { (m : Manner) (a : SocketAddr) (j : JobValue) (turns : List Turn) (o : Outcome) → m.keeps ≡ true → IsWhole m (share_value j turns (Some o))
        → AreShared m [] (ended a j [] turns (Some o) ∷ []) (kept_for j.address a (share_value j turns (Some o) ∷ []) [] ∷ []) [] }
    ensures quiet { (m : Manner) (a : SocketAddr) (j : JobValue) (turns : List Turn) (o : Outcome) → m.keeps ≡ true → IsWhole m (share_value j turns (Some o))
        → AreShared m [] (ended a j [] turns (Some o) ∷ []) (kept_for j.address a (share_value j turns (Some o) ∷ []) (Quiet ∷ []) ∷ []) [] }
    ensures again { (m : Manner) (a : SocketAddr) (i j : JobValue) (first last : List Turn) (o p : Outcome) → m.keeps ≡ true → i.address ≡ j.address
        → IsWhole m (share_value i first (Some o)) → IsWhole m (share_value j last (Some p)) → BeginsQuietly last
        → AreShared m [] (ended a i [] first (Some o) ∷ ended_over a j (share_value i first (Some o) ∷ []) last (Some p) ∷ [])
        (kept_for j.address a (share_value i first (Some o) ∷ share_value j last (Some p) ∷ []) [] ∷ []) [] }
    ensures left { (m : Manner) (a : SocketAddr) (i j : JobValue) (first last : List Turn) (o : Outcome) (p : Option Outcome) → m.keeps ≡ true
        → IsWhole m (share_value i first (Some o)) → BeginsQuietly last
        → AreShared m [] (ended a i [] first (Some o) ∷ ended_over a j (share_value i first (Some o) ∷ []) last p ∷ []) []
        (stream_value a (share_value i first (Some o) ∷ share_value j last p ∷ []) [] ∷ []) }
    ensures closed { (m : Manner) (a : SocketAddr) (j : JobValue) (turns : List Turn) (o : Outcome) (bytes : List ℕ) → m.keeps ≡ true
        → AreShared m [] (ended a j [] turns (Some o) ∷ []) [] (stream_value a (share_value j turns (Some o) ∷ []) (Quiet ∷ Came bytes ∷ []) ∷ []) }
    ensures under_way { (m : Manner) (a : SocketAddr) (i j : JobValue) (first turns : List Turn) (o : Outcome)
        → AreShared m (Some (asked_over a j (share_value i first (Some o) ∷ []) turns) ∷ []) (ended a i [] first (Some o) ∷ []) [] [] }
{}

/// No share of a stream that is kept is forgotten, or told twice. No stream is kept where none are, that no job went
/// over, that brought something since, or whose job had no reply; for another address than its job's; unwatched, or
/// with something to read. No job goes over one whose job before had no reply, and nothing is written to one that is
/// left.
fn other_kept_streams()
    ensures forgets { (m : Manner) (a : SocketAddr) (i j : JobValue) (first last : List Turn) (o p : Option Outcome)
        → AreShared m [] (ended a i [] first o ∷ ended_over a j (share_value i first o ∷ []) last p ∷ [])
        (kept_for j.address a (share_value j last p ∷ []) [] ∷ []) [] → ⊥ }
    ensures twice { (m : Manner) (a : SocketAddr) (j : JobValue) (turns : List Turn) (o : Option Outcome)
        → AreShared m [] (ended a j [] turns o ∷ []) (kept_for j.address a (share_value j turns o ∷ []) [] ∷ [])
        (stream_value a (share_value j turns o ∷ []) [] ∷ []) → ⊥ }
    ensures unkept { (m : Manner) (a : SocketAddr) (j : JobValue) (turns : List Turn) (o : Option Outcome) → m.keeps ≡ false
        → AreShared m [] (ended a j [] turns o ∷ []) (kept_for j.address a (share_value j turns o ∷ []) [] ∷ []) [] → ⊥ }
    ensures unasked_bytes { (m : Manner) (a : SocketAddr) (j : JobValue) (turns : List Turn) (o : Option Outcome) (b : ℕ) (bytes : List ℕ)
        → AreShared m [] (ended a j [] turns o ∷ []) (kept_for j.address a (share_value j turns o ∷ []) (Came (b ∷ bytes) ∷ []) ∷ []) [] → ⊥ }
    ensures another_address { (m : Manner) (a : SocketAddr) (j : JobValue) (turns : List Turn) (o : Option Outcome) (other : List ℕ) → (other ≡ j.address → ⊥)
        → AreShared m [] (ended a j [] turns o ∷ []) (kept_for other a (share_value j turns o ∷ []) [] ∷ []) [] → ⊥ }
    ensures without_share { (m : Manner) (a : SocketAddr) (address : List ℕ) → AreShared m [] [] (kept_for address a [] [] ∷ []) [] → ⊥ }
    ensures half { (m : Manner) (a : SocketAddr) (j : JobValue) (turns : List Turn)
        → AreShared m [] (ended a j [] turns None ∷ []) (kept_for j.address a (share_value j turns None ∷ []) [] ∷ []) [] → ⊥ }
    ensures unwatched { (m : Manner) (a : SocketAddr) (j : JobValue) (turns : List Turn) (o : Option Outcome)
        → AreShared m [] (ended a j [] turns o ∷ []) (kept_value (stream_value a (share_value j turns o ∷ []) []) j.address false None 5 ∷ []) [] → ⊥ }
    ensures behind_none { (m : Manner) (a : SocketAddr) (i j : JobValue) (first last : List Turn) (p : Option Outcome)
        → AreShared m [] (ended a i [] first None ∷ ended_over a j (share_value i first None ∷ []) last p ∷ []) []
        (stream_value a (share_value i first None ∷ share_value j last p ∷ []) [] ∷ []) → ⊥ }
    ensures written { (m : Manner) (a : SocketAddr) (j : JobValue) (turns : List Turn) (o : Option Outcome) (b : ℕ) (bytes : List ℕ)
        → AreShared m [] (ended a j [] turns o ∷ []) [] (stream_value a (share_value j turns o ∷ []) (Went (b ∷ bytes) ∷ []) ∷ []) → ⊥ }
    ensures unread { (m : Manner) (a : SocketAddr) (j : JobValue) (turns : List Turn) (o : Option Outcome)
        → AreShared m [] (ended a j [] turns o ∷ [])
        (kept_value (stream_value a (share_value j turns o ∷ []) []) j.address true (Some (3, true)) 5 ∷ []) [] → ⊥ }
{}

/// A share begins quietly where a read said that nothing was there, right before its first byte went.
fn shares_that_begin_quietly()
    ensures quiet { (bytes : List ℕ) (after : List Turn) → BeginsQuietly (Quiet ∷ Went bytes ∷ after) }
    ensures twice { (bytes : List ℕ) (after : List Turn) → BeginsQuietly (Quiet ∷ Quiet ∷ Went bytes ∷ after) }
    ensures unread { (bytes : List ℕ) (after : List Turn) → BeginsQuietly (Went bytes ∷ after) → ⊥ }
    ensures spoilt { (bytes more : List ℕ) (after : List Turn) → BeginsQuietly (Quiet ∷ Came bytes ∷ Went more ∷ after) → ⊥ }
    ensures unasked { (bytes more : List ℕ) (after : List Turn) → BeginsQuietly (Came bytes ∷ Quiet ∷ Went more ∷ after) → ⊥ }
    ensures untouched { BeginsQuietly (Quiet ∷ []) → ⊥ }
{}
