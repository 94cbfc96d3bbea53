//! The worked rows of rest. The functions do nothing.
ghost use Rattle.std.specs.Prelude.{◌≡◌, ◌∷◌, [], ℕ, List, None, Option, Some, codes, false, true, is_some};
ghost use Rattle.gateway_model.specs.Job.{JobValue};
ghost use Rattle.gateway_model.specs.Known.{Shown};
ghost use Rattle.gateway_model.specs.declared.entry.ReplyEntry.{ReplyEntry};
ghost use Rattle.gateway_theory.specs.Values.{GatewayValue, shown};
ghost use Rattle.std.specs.declared.net.socket_addr.SocketAddr.{SocketAddr};
ghost use Rattle.loop_model.specs.Requests.{request_of};
ghost use Rattle.loop_model.specs.Rest.{RestsAsking, RestsClient, RestsTill};
ghost use Rattle.loop_model.specs.Streams.{StreamValue, kept_value};
ghost use Rattle.loop_model.specs.declared.manner.Manner.{Manner};
ghost use Rattle.loop_rows.specs.LoopRows.{IsQuietAt, IsWantedBy, lingering_client, loop_of, loop_that_waits, standing_client, standing_job, talking_job, watched_client, watched_job, with_kept};

/// One to whom nothing is owed rests while nothing comes; one to whom something is owed while its stream takes no more.
fn rests_of_clients()
    ensures idle { (s : Shown) (until : Option ℕ) → IsQuietAt s → RestsClient s until 0 (standing_client [] false true) }
    ensures full { (s : Shown) (until : Option ℕ) (b : ℕ) (rest : List ℕ) → RestsClient s until 0 (standing_client (b ∷ rest) true false) }
    ensures unwritten { (s : Shown) (until : Option ℕ) (b : ℕ) (rest : List ℕ) → RestsClient s until 0 (standing_client (b ∷ rest) false true) → ⊥ }
    ensures untaken { (s : Shown) (until : Option ℕ) (e : ReplyEntry) (rest : List ReplyEntry)
        → s.untaken 0 ≡ e ∷ rest → RestsClient s until 0 (standing_client [] false true) → ⊥ }
    ensures unread { (s : Shown) (until : Option ℕ) → IsQuietAt s → RestsClient s until 0 (standing_client [] true true) → ⊥ }
    ensures over { (s : Shown) (until : Option ℕ) → s.untaken 0 ≡ [] → s.is_ended 0 ≡ true → RestsClient s until 0 (standing_client [] false true) → ⊥ }
{}

/// One that lingers rests till its limit, while nothing comes.
fn rests_of_those_that_linger()
    ensures rests { (s : Shown) → RestsClient s (Some 5) 0 (lingering_client false false (Some 5)) }
    ensures slept_over { (s : Shown) → RestsClient s (Some 6) 0 (lingering_client false false (Some 5)) → ⊥ }
    ensures forgotten { (s : Shown) → RestsClient s None 0 (lingering_client false false (Some 5)) → ⊥ }
    ensures for_ever { (s : Shown) (until : Option ℕ) → RestsClient s until 0 (lingering_client false false None) → ⊥ }
    ensures unread { (s : Shown) (until limit : Option ℕ) → RestsClient s until 0 (lingering_client false true limit) → ⊥ }
    ensures ended { (s : Shown) (until limit : Option ℕ) → RestsClient s until 0 (lingering_client true false limit) → ⊥ }
{}

/// A job that is asked for rests while its stream has nothing to read, and takes no more where something is left to be
/// written. One whose stream has not taken a byte is not read.
fn rests_of_jobs()
    ensures waits { (m : Manner) (a : SocketAddr) (s : Shown) (until : Option ℕ) (j : JobValue)
        → IsWantedBy s j → j.deadline ≡ None → RestsAsking m s until 1 (talking_job a j (request_of m j) false true) }
    ensures full { (m : Manner) (a : SocketAddr) (s : Shown) (until : Option ℕ) (j : JobValue)
        → IsWantedBy s j → j.deadline ≡ None → RestsAsking m s until 1 (talking_job a j [] false false) }
    ensures unsent { (m : Manner) (a : SocketAddr) (s : Shown) (until : Option ℕ) (j : JobValue)
        → RestsAsking m s until 1 (talking_job a j [] false true) → request_of m j ≡ [] }
    ensures connects { (m : Manner) (a : SocketAddr) (s : Shown) (until : Option ℕ) (j : JobValue)
        → IsWantedBy s j → j.deadline ≡ None → RestsAsking m s until 1 (talking_job a j [] true false) }
    ensures unread { (m : Manner) (a : SocketAddr) (s : Shown) (until : Option ℕ) (j : JobValue) (b : ℕ) (more : List ℕ)
        → RestsAsking m s until 1 (talking_job a j (b ∷ more) true false) → ⊥ }
    ensures over { (m : Manner) (s : Shown) (until : Option ℕ) (j : JobValue) → RestsAsking m s until 0 (standing_job j false false true) → ⊥ }
    ensures unwanted { (m : Manner) (s : Shown) (until : Option ℕ) (j : JobValue)
        → is_some (s.recorded j.call) ≡ false → RestsAsking m s until 0 (standing_job j false false false) → ⊥ }
    ensures slept_over { (m : Manner) (s : Shown) (j : JobValue) → j.deadline ≡ Some 5 → RestsAsking m s (Some 6) 0 (standing_job j false false false) → ⊥ }
{}

/// Nobody rests whose stream is not watched, or by the token of another place; nor one that has something to write, and
/// is not watched for room; nor behind the time that an address has to accept.
fn rests_of_streams()
    ensures client { (s : Shown) (until : Option ℕ) → IsQuietAt s → RestsClient s until 0 (watched_client (Some (0, true))) }
    ensures unwatched { (s : Shown) (until : Option ℕ) → RestsClient s until 0 (watched_client None) → ⊥ }
    ensures anothers { (s : Shown) (until : Option ℕ) → RestsClient s until 0 (watched_client (Some (2, true))) → ⊥ }
    ensures for_reads { (s : Shown) (until : Option ℕ) → RestsClient s until 0 (watched_client (Some (0, false))) → ⊥ }
    ensures job { (m : Manner) (a : SocketAddr) (s : Shown) (until : Option ℕ) (j : JobValue) → IsWantedBy s j → j.deadline ≡ None
        → RestsAsking m s until 1 (watched_job a j (request_of m j) (Some (3, false)) None) }
    ensures job_unwatched { (m : Manner) (a : SocketAddr) (s : Shown) (until : Option ℕ) (j : JobValue) (got : List ℕ)
        → RestsAsking m s until 1 (watched_job a j got None None) → ⊥ }
    ensures jobs_of_another { (m : Manner) (a : SocketAddr) (s : Shown) (until : Option ℕ) (j : JobValue) (got : List ℕ)
        → RestsAsking m s until 1 (watched_job a j got (Some (1, true)) None) → ⊥ }
    ensures job_for_reads { (m : Manner) (a : SocketAddr) (s : Shown) (until : Option ℕ) (j : JobValue)
        → RestsAsking m s until 1 (watched_job a j [] (Some (3, false)) None) → request_of m j ≡ [] }
    ensures slept_over { (m : Manner) (a : SocketAddr) (s : Shown) (j : JobValue) (got : List ℕ)
        → RestsAsking m s (Some 6) 1 (watched_job a j got (Some (3, true)) (Some 5)) → ⊥ }
{}

/// No loop rests with a job and a place for it, or behind the deadline of a call; nor with a job that is asked for and
/// has no stream, unless it waits for its name.
fn rests_of_loops()
    ensures empty { (m : Manner) (v : GatewayValue) → (shown v).waiting ≡ [] → (shown v).deadline ≡ None → RestsTill None (loop_of m v [] [] [] []) }
    ensures job { (m : Manner) (v : GatewayValue) (until : Option ℕ) (j : JobValue) (rest : List JobValue)
        → (shown v).waiting ≡ j ∷ rest → RestsTill until (loop_of m v [] [] [] []) → ⊥ }
    ensures slept_over { (m : Manner) (v : GatewayValue) → (shown v).deadline ≡ Some 5 → RestsTill (Some 6) (loop_of m v [] [] [] []) → ⊥ }
    ensures forgotten { (m : Manner) (v : GatewayValue) → (shown v).deadline ≡ Some 5 → RestsTill None (loop_of m v [] [] [] []) → ⊥ }
    ensures named { (m : Manner) (v : GatewayValue) (j : JobValue) → (shown v).waiting ≡ [] → (shown v).deadline ≡ None → IsWantedBy (shown v) j
        → j.deadline ≡ None
        → RestsTill None (loop_that_waits m v (Some (standing_job j false false false) ∷ []) [] (j.address ∷ [])) }
    ensures unnamed { (m : Manner) (v : GatewayValue) (until : Option ℕ) (j : JobValue)
        → RestsTill until (loop_that_waits m v (Some (standing_job j false false false) ∷ []) [] []) → ⊥ }
    ensures anothers { (m : Manner) (v : GatewayValue) (until : Option ℕ) (j : JobValue) (other : List ℕ) → (other ≡ j.address → ⊥)
        → RestsTill until (loop_that_waits m v (Some (standing_job j false false false) ∷ []) [] (other ∷ [])) → ⊥ }
{}

/// A stream that is kept rests while it is watched and nothing is there to be read, till its time is over.
fn rests_of_kept_streams()
    ensures rests { (m : Manner) (v : GatewayValue) (s : StreamValue) (address : List ℕ) → (shown v).waiting ≡ [] → (shown v).deadline ≡ None
        → RestsTill (Some 5) (with_kept m v [] (kept_value s address false (Some (3, true)) 5 ∷ [])) }
    ensures slept_over { (m : Manner) (v : GatewayValue) (s : StreamValue) (address : List ℕ)
        → RestsTill (Some 6) (with_kept m v [] (kept_value s address false (Some (3, true)) 5 ∷ [])) → ⊥ }
    ensures forgotten { (m : Manner) (v : GatewayValue) (s : StreamValue) (address : List ℕ)
        → RestsTill None (with_kept m v [] (kept_value s address false (Some (3, true)) 5 ∷ [])) → ⊥ }
    ensures unread { (m : Manner) (v : GatewayValue) (until : Option ℕ) (s : StreamValue) (address : List ℕ)
        → RestsTill until (with_kept m v [] (kept_value s address true (Some (3, true)) 5 ∷ [])) → ⊥ }
    ensures unwatched { (m : Manner) (v : GatewayValue) (until : Option ℕ) (s : StreamValue) (address : List ℕ)
        → RestsTill until (with_kept m v [] (kept_value s address false None 5 ∷ [])) → ⊥ }
{}
