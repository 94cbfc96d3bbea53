//! What follows from the definitions alone. The functions are empty: their clauses are the laws.
ghost use Rattle.std.specs.Prelude.{◌≡◌, ℕ, ◌<◌, ◌≤◌, ◌^◌, List, [], length, Bool, Option, None, Some, IsTrue};
ghost use Rattle.http_pieces.specs.Request.{HttpRequest};
ghost use Rattle.http_pieces.specs.declared.largest.TheConstants.{MAX_DECIMAL};
ghost use Rattle.connect_codec.specs.Verdict.{verdict_of};
ghost use Rattle.connect_codec.specs.declared.verdict.Verdict.TheVariants.{Ask};
ghost use Rattle.error_document.specs.Codes.{code_status};
ghost use Rattle.error_document.specs.Documents.{error_text};
ghost use Rattle.error_document.specs.declared.document.RpcError.{RpcError};
ghost use Rattle.connect_codec.specs.Reply.{success_reply, error_reply, bare_reply, reply_fields, is_bare_status};
ghost use Rattle.connect_codec.specs.BranchRequest.{BranchCall, branch_request};
ghost use Rattle.connect_codec.specs.ReadBack.{ReadsAsReply, ReadsAsCall, IsSendable};

/// A reader of responses finds in the bytes of a reply the head and the body that it was made of, and
/// stops where it ends, whatever follows.
pub fn replies_read_back()
    ensures success { (body more : List ℕ) (last : Bool) → length body < 2 ^ 64
        → ReadsAsReply (success_reply body last) 200
        (reply_fields 200 (Some body) last) body more }
    ensures error { (error : RpcError) (more : List ℕ) (last : Bool)
        → length (error_text error) < 2 ^ 64
        → ReadsAsReply (error_reply error last) (code_status error.code)
        (reply_fields (code_status error.code) (Some (error_text error)) last)
        (error_text error) more }
    ensures bare { (status : ℕ) (more : List ℕ) (last : Bool) → IsTrue (is_bare_status status)
        → ReadsAsReply (bare_reply status last) status
        (reply_fields status None last) [] more }
{}

/// A reader of requests finds in the bytes of a branch request the head and the body that it was made
/// of, and stops where it ends, whatever follows.
pub fn branch_requests_read_back()
    ensures { (call : BranchCall) (more : List ℕ) → IsSendable call
        → ReadsAsCall (branch_request call) call more }
{}

/// A timeout that a request asks for has ten digits at most.
pub fn timeout_law()
    ensures { (q : HttpRequest) (known : Bool) (timeout : ℕ) (id : Option (List ℕ))
        → verdict_of q known ≡ Ask (Some timeout) id → timeout ≤ MAX_DECIMAL }
{}
