//! What the definitions of this crate come to, as facts on all texts. The functions do nothing.
ghost use Rattle.std.specs.Prelude.{◌≡◌, ℕ, ◌+◌, ◌*◌, ◌<◌, ◌≤◌, List, [], ◌++◌, length, None};
ghost use Rattle.http_pieces.specs.Chunked.{IsInChunks};
ghost use Rattle.http_pieces.specs.Chunks.{cut_chunks};
ghost use Rattle.http_pieces.specs.Cut.{Cut, Incomplete, Refused, Complete, IsBlock, IsCut};
ghost use Rattle.http_pieces.specs.Head.{request_kind};
ghost use Rattle.http_pieces.specs.Looked.{IsLookedAt};
ghost use Rattle.http_pieces.specs.Reader.{HasRead, reader_value, Partial};
ghost use Rattle.http_pieces.specs.ReplyHead.{reply_kind};
ghost use Rattle.http_pieces.specs.ReplyReader.{HasReadReply, reader_framing, Partial as ReplyPartial};
ghost use Rattle.http_pieces.specs.Request.{HttpRequest};
ghost use Rattle.http_pieces.specs.Requests.{StreamEnd, Open, RefusedBy, Closed, Requests};
ghost use Rattle.http_pieces.specs.declared.chunk_parts.ChunkFault.{ChunkFault};
ghost use Rattle.http_pieces.specs.declared.framing.Framing.{Framing};
ghost use Rattle.http_pieces.specs.declared.refusal.Refusal.{Refusal};
ghost use Rattle.http_pieces.specs.declared.reply.HttpReply.{HttpReply};
ghost use Rattle.http_pieces.specs.declared.reply_fault.ReplyFault.{ReplyFault};

/// A text has one block at most, and what follows it does not change it.
pub fn block_law()
    ensures unique { (text : List ℕ) (m n : ℕ) → IsBlock text m → IsBlock text n → m ≡ n }
    ensures stays { (text more : List ℕ) (n : ℕ) → IsBlock text n → IsBlock (text ++ more) n }
{}

/// A text is cut in one way. More bytes never change a request or a refusal that was cut.
pub fn cut_law()
    ensures unique { (k : ℕ) (text : List ℕ) (c d : Cut Refusal HttpRequest)
        → IsCut (request_kind k) text c → IsCut (request_kind k) text d → c ≡ d }
    ensures request_stays { (k : ℕ) (text more : List ℕ) (q : HttpRequest) (rest : List ℕ)
        → IsCut (request_kind k) text (Complete q rest)
        → IsCut (request_kind k) (text ++ more) (Complete q (rest ++ more)) }
    ensures refusal_stays { (k : ℕ) (text more : List ℕ) (r : Refusal)
        → IsCut (request_kind k) text (Refused r) → IsCut (request_kind k) (text ++ more) (Refused r) }
{}

/// A text is cut in one way into a reply or a fault. More bytes never change the one or the other.
pub fn reply_cut_law()
    ensures unique { (framing : Framing) (text : List ℕ) (c d : Cut ReplyFault HttpReply)
        → IsCut (reply_kind framing) text c → IsCut (reply_kind framing) text d → c ≡ d }
    ensures reply_stays { (framing : Framing) (text more : List ℕ) (q : HttpReply) (rest : List ℕ)
        → IsCut (reply_kind framing) text (Complete q rest)
        → IsCut (reply_kind framing) (text ++ more) (Complete q (rest ++ more)) }
    ensures fault_stays { (framing : Framing) (text more : List ℕ) (f : ReplyFault)
        → IsCut (reply_kind framing) text (Refused f) → IsCut (reply_kind framing) (text ++ more) (Refused f) }
{}

/// A body is cut out of its chunks exactly where the grammar of RFC 9112, section 7.1 writes it within this
/// project's limits. What is refused is the front of none.
pub fn chunks_law()
    ensures written { (text body rest : List ℕ) → cut_chunks text ≡ Complete body rest → IsInChunks text body rest }
    ensures cut { (text body rest : List ℕ) → IsInChunks text body rest → cut_chunks text ≡ Complete body rest }
    ensures refused { (text more : List ℕ) (f : ChunkFault) → cut_chunks text ≡ Refused f
        → (body rest : List ℕ) → ¬ (IsInChunks (text ++ more) body rest) }
    ensures incomplete { (text more body : List ℕ) → 0 < length more → IsInChunks (text ++ more) body []
        → cut_chunks text ≡ Incomplete }
{}

/// A text has one list of requests, and more bytes add to it what they add to the bytes left over.
pub fn requests_law()
    ensures unique { (k : ℕ) (text : List ℕ) (given other : List HttpRequest) (a b : StreamEnd)
        → Requests k text given a → Requests k text other b → (given ≡ other) × (a ≡ b) }
    ensures more { (k : ℕ) (text : List ℕ) (given : List HttpRequest) (left : List ℕ)
        → Requests k text given (Open left) → (more : List ℕ) (requests : List HttpRequest) (ending : StreamEnd)
        → Requests (k + length given) (left ++ more) requests ending
        → Requests k (text ++ more) (given ++ requests) ending }

    // A stream that was refused, or whose last request closes, gains nothing.
    ensures refused_stays { (k : ℕ) (text more : List ℕ) (given : List HttpRequest) (r : Refusal)
        → Requests k text given (RefusedBy r) → Requests k (text ++ more) given (RefusedBy r) }
    ensures closed_stays { (k : ℕ) (text more : List ℕ) (given : List HttpRequest)
        → Requests k text given Closed → Requests k (text ++ more) given Closed }
{}

/// So many bytes of a text are looked at, and at most twice as many as it has.
pub fn looked_law()
    ensures unique { (text : List ℕ) (m n : ℕ) → IsLookedAt text m → IsLookedAt text n → m ≡ n }
    ensures twice { (text : List ℕ) (n : ℕ) → IsLookedAt text n → n ≤ 2 * length text }
{}

/// A reader of a stream that has not begun has read nothing of it, and has looked at nothing.
pub fn fresh_law()
    ensures requests { HasRead (reader_value 0 (Partial [])) [] [] }
    ensures reply { (framing : Framing) → HasReadReply (reader_framing framing (ReplyPartial [])) [] None }
{}

/// Every text is cut into something, and has a list of requests. (There can't be none: a head's grammar is a relation,
/// so that no head is computed here.)
pub fn existence_law()
    ensures cut { (k : ℕ) (text : List ℕ) → ¬ ((c : Cut Refusal HttpRequest) → ¬ (IsCut (request_kind k) text c)) }
    ensures reply_cut { (framing : Framing) (text : List ℕ)
        → ¬ ((c : Cut ReplyFault HttpReply) → ¬ (IsCut (reply_kind framing) text c)) }
    ensures requests { (k : ℕ) (text : List ℕ) → ¬ ((given : List HttpRequest) (ending : StreamEnd) → ¬ (Requests k text given ending)) }
{}
