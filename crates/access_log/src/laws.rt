//! What the lines of the log come to beside the replies, as facts. The functions do nothing.
ghost use Rattle.std.specs.Prelude.{◌≡◌, ◌++◌, List, ℕ};
ghost use Rattle.connect_codec.specs.Reply.{status_line};
ghost use Rattle.gateway_model.specs.declared.entry.ReplyEntry.{ReplyEntry};
ghost use Rattle.gateway_model.specs.Queue.{answer_of};
ghost use Rattle.access_log.specs.Line.{HasReply, status_told};

/// The status that is told of an entry is the one that the bytes of its reply begin with.
pub fn status_law()
    ensures status { (entry : ReplyEntry) → HasReply entry
        → (rest : List ℕ) × ((answer_of entry).bytes ≡ status_line (status_told entry) ++ rest) }
{}
