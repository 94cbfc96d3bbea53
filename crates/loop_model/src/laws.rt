//! What the definitions of this crate come to. The functions do nothing.
ghost use Rattle.connect_codec.specs.Outcome.{outcome_of};
ghost use Rattle.http_pieces.specs.Cut.{Complete, IsCut};
ghost use Rattle.http_pieces.specs.ReplyHead.{reply_kind};
ghost use Rattle.http_pieces.specs.declared.reply.HttpReply.{HttpReply};
ghost use Rattle.loop_model.specs.Requests.{request_of};
ghost use Rattle.loop_model.specs.Shares.{IsShareAnswered, IsWhole, Replies};
ghost use Rattle.loop_model.specs.Streams.{ShareValue, turns_of};
ghost use Rattle.loop_model.specs.declared.manner.Manner.{Manner};
ghost use Rattle.std.specs.Prelude.{◌≡◌, ◌++◌, ℕ, All, List, Some, flat_map, length, map};
ghost use Rattle.wires.specs.Turns.{given_of, got_of};

use http_pieces::laws::reply_cut_law;

/// However many bytes follow, the k-th reply that a stream to a backend is cut into is told as the outcome of the k-th
/// job that had a share of it, where each of these is whole; and so is the one behind them, of a job that was answered.
/// What was written to it are their requests, in order.
pub fn pairing_law()
    ensures written { (manner : Manner) (shares : List ShareValue) → All (IsWhole manner) shares
        → got_of (turns_of shares) ≡ flat_map (request_of manner) (map (λ (x : ShareValue). x.job) shares) }
    ensures told { (manner : Manner) (shares : List ShareValue) → All (IsWhole manner) shares
        → (more : List ℕ) (replies : List HttpReply) (rest : List ℕ) → length replies ≡ length shares
        → Replies manner.framing (given_of (turns_of shares) ++ more) replies rest
        → (map (λ (x : ShareValue). x.outcome) shares ≡ map (λ (q : HttpReply). Some (outcome_of (Some q))) replies) × (rest ≡ more) }
    ensures told_last { (manner : Manner) (shares : List ShareValue) → All (IsWhole manner) shares
        → (x : ShareValue) → IsShareAnswered manner x
        → (more : List ℕ) (replies : List HttpReply) (reply : HttpReply) (mid rest : List ℕ) → length replies ≡ length shares
        → Replies manner.framing (given_of (turns_of shares) ++ (given_of x.turns ++ more)) replies mid
        → IsCut (reply_kind manner.framing) mid (Complete reply rest) → x.outcome ≡ Some (outcome_of (Some reply)) }
{
    reply_cut_law();
}
