ghost use Rattle.std.specs.Prelude.{◌≡◌, IfOk, OnErr, OnOk, true};
ghost use Rattle.gateway_replies.specs.Contexts.{KeepsOthers, is_life, without};
ghost use Rattle.gateway_replies.specs.Hooks.{CallsAtMost, GivesBytes, LosesHook, called_on, ending_for};
ghost use Rattle.gateway_model.specs.Queue.{call_reply};
ghost use Rattle.gateway_theory.specs.Replies.{reply_with};
ghost use Rattle.gateway_model.specs.declared.entry.ReplyEntry.{ReplyEntry};

use crate::contexts::Contexts;
use crate::ending::ending_of;
use crate::held::hold_answers;
use crate::hook::ReplyHook;
use crate::joined::joined;
use crate::label::RequestLabel;
use crate::reply::{Reply, reply_of_call};
use gateway_model::{CallId, CallRecord, Ending};
use http_pieces::Bytes;
use std::alloc::{AllocError, Global};

/// The reply to a decided call: an error is told by its hook, and where it succeeded its hook is dropped uncalled. The
/// label is what a log tells of its request.
pub fn reply_to<H: ReplyHook + Drop>(
    alloc: Global,
    contexts: &mut Contexts<H>,
    id: CallId,
    call: CallRecord,
    label: RequestLabel,
) -> Result<Reply, AllocError>
    requires { is_life id contexts.old.standing.calls ≡ true }
    ensures reply { IfOk result (λ reply. reply ≡ reply_with id (ReplyEntry.Call call)) }
    ensures gone { OnOk result (contexts.new.standing ≡ without id contexts.old.standing) }
    ensures others { OnErr result (KeepsOthers id.conn contexts.old.standing contexts.new.standing) }
    ensures stocks { contexts.new.stocks ≡ contexts.old.stocks }
    ensures hook { OnOk result (LosesHook id (called_on id (ending_for call)) contexts.old contexts.new) }
    ensures called { OnOk result (GivesBytes H.gives id (ending_for call) (call_reply call).bytes contexts.old) }
    ensures once { OnErr result (CallsAtMost (called_on id (ending_for call)) contexts.old.called contexts.new.called) }
{
    let mut bytes = bytes_of(alloc, contexts, &id, &call)?;
    let mut call = call;
    hold_answers(&mut call, &mut bytes);
    Ok(reply_of_call(id, call, bytes, label))
}

/// Its bytes: the error of its last event, or the answers joined.
fn bytes_of<H: ReplyHook + Drop>(
    alloc: Global,
    contexts: &mut Contexts<H>,
    id: &CallId,
    call: &CallRecord,
) -> Result<Bytes, AllocError>
    requires { is_life id.now contexts.old.standing.calls ≡ true }
    ensures bytes { IfOk result (λ bytes. bytes ≡ (call_reply call.now).bytes) }
    ensures gone { OnOk result (contexts.new.standing ≡ without id.now contexts.old.standing) }
    ensures others { OnErr result (KeepsOthers id.now.conn contexts.old.standing contexts.new.standing) }
    ensures stocks { contexts.new.stocks ≡ contexts.old.stocks }
    ensures hook { OnOk result (LosesHook id.now (called_on id.now (ending_for call.now)) contexts.old contexts.new) }
    ensures called { IfOk result (λ bytes. GivesBytes H.gives id.now (ending_for call.now) bytes contexts.old) }
    ensures once { OnErr result (CallsAtMost (called_on id.now (ending_for call.now)) contexts.old.called contexts.new.called) }
{
    match last_ending(alloc, call)? {
        Some(ending) => contexts.end(id, ending),
        None => {
            contexts.abandon(id);
            joined(alloc, &call.plan, &call.events, call.last)
        }
    }
}

/// How its last event ends it; an answer does not.
fn last_ending(alloc: Global, call: &CallRecord) -> Result<Option<Ending>, AllocError>
    ensures { IfOk result (λ ending. ending ≡ ending_for call.now) }
{
    match call.events.last() {
        Some(event) => ending_of(alloc, &call.plan, event, call.last),
        None => Ok(None),
    }
}
