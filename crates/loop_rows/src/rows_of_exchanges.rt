//! The worked rows of exchanges. The functions do nothing.
ghost use Rattle.std.specs.Prelude.{◌≡◌, ◌==◌, ◌∷◌, ◌++◌, [], ℕ, List, codes, Option, Some, None, false, true};
ghost use Rattle.connect_codec.specs.Outcome.{outcome_of};
ghost use Rattle.connect_codec.specs.declared.answer.Outcome.{Outcome};
ghost use Rattle.gateway_model.specs.Job.{JobValue};
ghost use Rattle.std.specs.declared.net.socket_addr.SocketAddr.{SocketAddr};
ghost use Rattle.http_pieces.specs.Cut.{Complete, Incomplete, IsCut, Refused};
ghost use Rattle.http_pieces.specs.ReplyHead.{reply_kind};
ghost use Rattle.http_pieces.specs.declared.framing.Framing.TheVariants as framings;
ghost use Rattle.http_pieces.specs.declared.reply.HttpReply.{HttpReply};
ghost use Rattle.http_pieces.specs.declared.reply_fault.ReplyFault.{ReplyFault};
ghost use Rattle.loop_model.specs.Asking.{IsFair};
ghost use Rattle.loop_model.specs.Requests.{request_of};
ghost use Rattle.loop_model.specs.Shares.{IsWhole};
ghost use Rattle.loop_model.specs.Streams.{ShareValue, share_value};
ghost use Rattle.loop_model.specs.declared.manner.Manner.{Manner};
ghost use Rattle.loop_rows.specs.LoopRows.{IsReplyInChunks, ended, ended_over, new_stream, talk};
ghost use Rattle.wires.specs.Turns.{Came, Quiet, Turn, Went, given_of};

use http_pieces::laws::reply_cut_law;

/// An exchange ends by its reply, once its request was written whole; by none, where none came or some of the request
/// was not written; or for want of memory. Streams that were given up before are no matter, where nothing was written
/// to them.
fn fair_ends()
    ensures answered { (m : Manner) (a : SocketAddr) (j : JobValue) (reply : HttpReply) (given rest : List ℕ)
        → IsCut (reply_kind m.framing) given (Complete reply rest)
        → IsFair m (ended a j [] (talk (request_of m j) given) (Some (outcome_of (Some reply)))) }
    ensures lost { (m : Manner) (a : SocketAddr) (j : JobValue) (given : List ℕ) → IsCut (reply_kind m.framing) given Incomplete
        → IsFair m (ended a j [] (talk (request_of m j) given) (Some (outcome_of None))) }
    ensures refused { (m : Manner) (a : SocketAddr) (j : JobValue) (fault : ReplyFault) (given : List ℕ) → IsCut (reply_kind m.framing) given (Refused fault)
        → IsFair m (ended a j [] (talk (request_of m j) given) (Some (outcome_of None))) }
    ensures unwritten { (m : Manner) (a : SocketAddr) (j : JobValue) (given front more : List ℕ) (b : ℕ) → request_of m j ≡ front ++ b ∷ more
        → IsFair m (ended a j [] (talk front given) (Some (outcome_of None))) }
    ensures no_memory { (m : Manner) (a : SocketAddr) (j : JobValue) (given front more : List ℕ) → request_of m j ≡ front ++ more
        → IsFair m (ended a j [] (talk front given) None) }
    ensures another_tried { (m : Manner) (a : SocketAddr) (j : JobValue) → IsFair m (ended a j (new_stream a [] ∷ []) [] (Some (outcome_of None))) }
{
    reply_cut_law();
}

/// No request is written twice, or otherwise, or to two streams; no answer is made up, or given before the request was
/// written; and a whole reply to it is not told as none.
fn other_ends()
    ensures twice { (m : Manner) (a : SocketAddr) (j : JobValue) (given : List ℕ) (o : Option Outcome)
        → IsFair m (ended a j [] (talk (request_of m j ++ request_of m j) given) o) → ⊥ }
    ensures otherwise { (m : Manner) (a : SocketAddr) (j : JobValue) (given : List ℕ) (o : Option Outcome)
        → IsFair m (ended a j [] (talk (codes "GET") given) o) → ⊥ }
    ensures two_streams { (m : Manner) (a : SocketAddr) (j : JobValue) (given : List ℕ) (o : Option Outcome)
        → IsFair m (ended a j (new_stream a (Went (request_of m j) ∷ []) ∷ []) (talk (request_of m j) given) o) → ⊥ }
    ensures made_up { (m : Manner) (a : SocketAddr) (j : JobValue) (body : List ℕ)
        → IsFair m (ended a j [] (Went (request_of m j) ∷ []) (Some (Outcome.Answer body))) → ⊥ }
    ensures early { (m : Manner) (a : SocketAddr) (j : JobValue) (given body : List ℕ)
        → IsFair m (ended a j [] (Came given ∷ []) (Some (Outcome.Answer body))) → ⊥ }
    ensures reply_lost { (m : Manner) (a : SocketAddr) (j : JobValue) (reply : HttpReply) (given rest body : List ℕ)
        → IsCut (reply_kind m.framing) given (Complete reply rest) → outcome_of (Some reply) ≡ Outcome.Answer body
        → IsFair m (ended a j [] (talk (request_of m j) given) (Some (outcome_of None))) → ⊥ }
{
    reply_cut_law();
}

/// An exchange may go over a stream that was kept: a job of its address went over it, and had its whole reply, and
/// nothing was there to be read as the request was written. A 408 there is nobody's.
fn ends_over_kept_streams()
    ensures answered { (m : Manner) (a : SocketAddr) (i j : JobValue) (first : List Turn) (p : Outcome) (reply : HttpReply) (given rest : List ℕ)
        → m.keeps ≡ true → i.address ≡ j.address → IsWhole m (share_value i first (Some p)) → IsCut (reply_kind m.framing) given (Complete reply rest)
        → (reply.status == 408) ≡ false
        → IsFair m (ended_over a j (share_value i first (Some p) ∷ []) (Quiet ∷ talk (request_of m j) given) (Some (outcome_of (Some reply)))) }
    ensures lost { (m : Manner) (a : SocketAddr) (i j : JobValue) (first : List Turn) (p : Outcome) → m.keeps ≡ true → i.address ≡ j.address
        → IsWhole m (share_value i first (Some p))
        → IsFair m (ended_over a j (share_value i first (Some p) ∷ []) (Quiet ∷ Went (request_of m j) ∷ []) (Some (outcome_of None))) }
    ensures stray { (m : Manner) (a : SocketAddr) (i j : JobValue) (first : List Turn) (p : Outcome) (reply : HttpReply) (given rest : List ℕ)
        → m.keeps ≡ true → i.address ≡ j.address → IsWhole m (share_value i first (Some p)) → IsCut (reply_kind m.framing) given (Complete reply rest)
        → (reply.status == 408) ≡ true
        → IsFair m (ended_over a j (share_value i first (Some p) ∷ []) (Quiet ∷ talk (request_of m j) given) (Some (outcome_of None))) }
{}

/// It goes over no stream that a job of another address went over, or at which nobody looked before its request was
/// written; and over no used one where none are kept. No answer is made of a 408 over a used one.
fn other_ends_over_kept_streams()
    ensures anothers { (m : Manner) (a : SocketAddr) (i j : JobValue) (first turns : List Turn) (p o : Option Outcome) → (i.address ≡ j.address → ⊥)
        → IsFair m (ended_over a j (share_value i first p ∷ []) turns o) → ⊥ }
    ensures unquiet { (m : Manner) (a : SocketAddr) (j : JobValue) (x : ShareValue) (before : List ShareValue) (given : List ℕ) (o : Option Outcome)
        → IsFair m (ended_over a j (x ∷ before) (talk (request_of m j) given) o) → ⊥ }
    ensures unkept { (m : Manner) (a : SocketAddr) (j : JobValue) (x : ShareValue) (before : List ShareValue) (turns : List Turn) (o : Option Outcome)
        → m.keeps ≡ false → IsFair m (ended_over a j (x ∷ before) turns o) → ⊥ }
    ensures stray { (m : Manner) (a : SocketAddr) (j : JobValue) (x : ShareValue) (before : List ShareValue) (turns : List Turn) (reply : HttpReply) (rest body : List ℕ)
        → IsCut (reply_kind m.framing) (given_of turns) (Complete reply rest) → (reply.status == 408) ≡ true
        → IsFair m (ended_over a j (x ∷ before) turns (Some (Outcome.Answer body))) → ⊥ }
{
    reply_cut_law();
}

/// A reply in chunks is the answer where chunks are taken, and no reply where they are not.
fn replies_in_chunks()
    ensures taken { (m : Manner) (a : SocketAddr) (j : JobValue) (reply : HttpReply) (given : List ℕ) → m.framing ≡ framings.Any → IsReplyInChunks given reply
        → IsFair m (ended a j [] (talk (request_of m j) given) (Some (outcome_of (Some reply)))) }
    ensures not_taken { (m : Manner) (a : SocketAddr) (j : JobValue) (reply : HttpReply) (given : List ℕ) → m.framing ≡ framings.Fixed
        → IsReplyInChunks given reply → IsFair m (ended a j [] (talk (request_of m j) given) (Some (outcome_of None))) }
    ensures lost { (m : Manner) (a : SocketAddr) (j : JobValue) (reply : HttpReply) (given body : List ℕ) → m.framing ≡ framings.Any
        → IsReplyInChunks given reply → outcome_of (Some reply) ≡ Outcome.Answer body
        → IsFair m (ended a j [] (talk (request_of m j) given) (Some (outcome_of None))) → ⊥ }
    ensures made_up { (m : Manner) (a : SocketAddr) (j : JobValue) (reply : HttpReply) (given body : List ℕ) → m.framing ≡ framings.Fixed
        → IsReplyInChunks given reply → IsFair m (ended a j [] (talk (request_of m j) given) (Some (Outcome.Answer body))) → ⊥ }
{
    reply_cut_law();
}
