ghost use Rattle.std.specs.Prelude.{◌≡◌, IfOk, false};
ghost use Rattle.connect_codec.specs.Verdict.{HasBareStatus};
ghost use Rattle.gateway_theory.specs.Arrivals.{is_ask};
ghost use Rattle.gateway_model.specs.Queue.{answer_of, call_reply};
ghost use Rattle.gateway_theory.specs.Replies.{reply_with};
ghost use Rattle.gateway_model.specs.declared.entry.ReplyEntry.{ReplyEntry};

use crate::answers::{crowded, judged, refused};
use crate::label::RequestLabel;
use connect_codec::Verdict;
use gateway_model::{CallId, CallRecord, ReplyBytes, ReplyEntry};
use http_pieces::{Bytes, Refusal};
use std::alloc::{AllocError, Global};
use std::marker::Model;

/// A reply, ready to be written to its connection: its bytes are those that answer its entry.
pub struct Reply {
    id: CallId,
    entry: ReplyEntry,
    message: ReplyBytes,
    label: RequestLabel,
}

// by hand, so that a drop is one call, where a derived one is written out at each return
impl Drop for Reply {
    fn drop(self) {
        let Reply {
            id: _,
            entry: _,
            message: _,
            label: _,
        } = self;
    }
}

impl Model for Reply {
    ghost use Rattle.std.specs.Prelude.{◌≡◌};
    ghost use Rattle.gateway_model.specs.Queue.{answer_of};
    ghost use Rattle.gateway_theory.specs.Replies.{ReplyValue, reply_with};

    ghost Value = { ReplyValue };

    ghost view = { λ r. reply_with r.id r.entry };

    ghost invariant = { λ r. r.message ≡ answer_of r.entry };
}

impl Reply {
    /// The request that it answers: its connection, and its number on it.
    pub fn id(&self) -> CallId
        ensures { result ≡ self.now.id }
    {
        self.id
    }

    /// What the request is answered by.
    pub fn entry(&self) -> &ReplyEntry
        ensures { result.now ≡ self.now.entry }
    {
        &self.entry
    }

    /// The bytes to be written.
    pub fn bytes(&self) -> &[u8]
        ensures { result.now ≡ (answer_of self.now.entry).bytes }
    {
        self.message.bytes.as_slice()
    }

    /// The request that it answers, what that is answered by, the bytes to be written, and what a log tells of the
    /// request.
    pub fn into_parts(self) -> (CallId, ReplyEntry, Bytes, RequestLabel)
        ensures id { result.0 ≡ self.id }
        ensures entry { result.1 ≡ self.entry }
        ensures bytes { result.2 ≡ (answer_of self.entry).bytes }
    {
        let Reply {
            id,
            entry,
            message,
            label,
        } = self;
        let ReplyBytes { bytes, last: _ } = message;
        (id, entry, bytes, label)
    }

    /// Whether it is the connection's last: no request behind it is read.
    pub fn last(&self) -> bool
        ensures { result ≡ (answer_of self.now.entry).last }
    {
        self.message.last
    }
}

/// The reply to a stream's refusal.
pub fn refused_reply(alloc: Global, id: CallId, refusal: Refusal) -> Result<Reply, AllocError>
    ensures { IfOk result (λ reply. reply ≡ reply_with id (ReplyEntry.Refused refusal)) }
{
    let message = refused(alloc, refusal)?;
    Ok(Reply {
        id,
        entry: ReplyEntry::Refused(refusal),
        message,
        label: RequestLabel::Nothing,
    })
}

/// The reply to a request that is no call, of which a log tells this.
pub fn judged_reply(
    alloc: Global,
    id: CallId,
    verdict: Verdict,
    last: bool,
    label: RequestLabel,
) -> Result<Reply, AllocError>
    requires no_call { is_ask verdict ≡ false }
    requires bare { HasBareStatus verdict }
    ensures { IfOk result (λ reply. reply ≡ reply_with id (ReplyEntry.Judged verdict last)) }
{
    let message = judged(alloc, &verdict, last)?;
    Ok(Reply {
        id,
        entry: ReplyEntry::Judged(verdict, last),
        message,
        label,
    })
}

/// The reply to a call too many, of which a log tells this.
pub fn crowded_reply(
    alloc: Global,
    id: CallId,
    last: bool,
    label: RequestLabel,
) -> Result<Reply, AllocError>
    ensures { IfOk result (λ reply. reply ≡ reply_with id (ReplyEntry.Crowded last)) }
{
    let message = crowded(alloc, last)?;
    Ok(Reply {
        id,
        entry: ReplyEntry::Crowded(last),
        message,
        label,
    })
}

/// The reply to a decided call, of which a log tells this.
pub(crate) fn reply_of_call(
    id: CallId,
    call: CallRecord,
    bytes: Bytes,
    label: RequestLabel,
) -> Reply
    requires { bytes ≡ (call_reply call).bytes }
    ensures { result ≡ reply_with id (ReplyEntry.Call call) }
{
    let last = call.last;
    Reply {
        id,
        entry: ReplyEntry::Call(call),
        message: ReplyBytes { bytes, last },
        label,
    }
}
