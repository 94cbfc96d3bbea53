//! What the log tells of an entry.
ghost use Rattle.std.specs.Prelude.{◌≡◌, option_map};
ghost use Rattle.error_document.specs.Codes.{code_name};
ghost use Rattle.gateway_model.specs.Branch.{branch_at};
ghost use Rattle.gateway_model.specs.CallRecord.{last_event};
ghost use Rattle.access_log.specs.Line.{bare_status, branch_in, branch_told, code_in, code_told, ended_name, ended_told, path_told, refusal_status, status_told, taken_told};

use crate::ending::Ended;
use call_plan::Plan;
use connect_codec::Verdict;
use error_document::Code;
use gateway_model::{CallEvent, CallRecord, ReplyEntry};
use http_pieces::Refusal;

/// What ended the call, or why there was none.
pub fn ended(entry: &ReplyEntry) -> Ended
    ensures { ended_name result ≡ ended_told entry.now }
{
    match entry {
        ReplyEntry::Refused(_) => Ended::Refusal,
        ReplyEntry::Judged(..) => Ended::NoCall,
        ReplyEntry::Crowded(_) => Ended::OneTooMany,
        ReplyEntry::Call(call) => match deciding(call) {
            Some(CallEvent::Answer(..)) | None => Ended::Answers,
            Some(CallEvent::Failed(..)) => Ended::Branch,
            Some(CallEvent::Expired(_)) => Ended::Deadline,
            Some(CallEvent::BranchExpired(..)) => Ended::BranchDeadline,
            Some(CallEvent::HungUp) => Ended::HangUp,
            Some(CallEvent::Drained) => Ended::Drain,
        },
    }
}

/// The event that decided the call.
fn deciding(call: &CallRecord) -> Option<&CallEvent>
    ensures { option_map (λ event. event.now) result ≡ last_event call.now.events }
{
    call.events.last()
}

/// The branch that ended the call.
pub(crate) fn branch(entry: &ReplyEntry) -> Option<&str>
    ensures { option_map (λ name. name.now) result ≡ branch_told entry.now }
{
    match entry {
        ReplyEntry::Call(call) => branch_of(call),
        _ => None,
    }
}

fn branch_of(call: &CallRecord) -> Option<&str>
    ensures { option_map (λ name. name.now) result ≡ branch_in call.now }
{
    match deciding(call) {
        Some(CallEvent::Failed(branch, _)) => Some(name_of(&call.plan, *branch)),
        Some(CallEvent::BranchExpired(branch, _)) => Some(name_of(&call.plan, *branch)),
        _ => None,
    }
}

fn name_of(plan: &Plan, branch: u32) -> &str
    ensures { result.now ≡ (branch_at plan.now branch).name }
{
    match plan.branches().get(branch as usize) {
        Some(branch) => branch.name.as_str(),
        None => "",
    }
}

/// The path of the call's plan.
pub fn path(entry: &ReplyEntry) -> Option<&str>
    ensures { option_map (λ path. path.now) result ≡ path_told entry.now }
{
    match entry {
        ReplyEntry::Call(call) => Some(call.plan.path()),
        _ => None,
    }
}

/// The milliseconds from the call's arrival to that moment.
pub fn taken(moment: u64, entry: &ReplyEntry) -> Option<u64>
    ensures { result ≡ taken_told moment entry.now }
{
    match entry {
        ReplyEntry::Call(call) => Some(moment.saturating_sub(call.start)),
        _ => None,
    }
}

/// The name of the code of the error that the reply tells.
pub(crate) fn code_name(entry: &ReplyEntry) -> Option<&'static str>
    ensures { option_map (λ name. name.now) result ≡ option_map code_name (code_told entry.now) }
{
    match code(entry) {
        Some(code) => Some(code.name()),
        None => None,
    }
}

fn code(entry: &ReplyEntry) -> Option<Code>
    ensures { result ≡ code_told entry.now }
{
    match entry {
        ReplyEntry::Refused(Refusal::BodyTooLarge) => Some(Code::ResourceExhausted),
        ReplyEntry::Judged(Verdict::Fail(error), _) => Some(error.code),
        ReplyEntry::Crowded(_) => Some(Code::ResourceExhausted),
        ReplyEntry::Call(call) => code_of(call),
        _ => None,
    }
}

fn code_of(call: &CallRecord) -> Option<Code>
    ensures { result ≡ code_in call.now }
{
    match deciding(call) {
        Some(CallEvent::Answer(..)) | None => None,
        Some(CallEvent::Failed(_, error)) => Some(error.code),
        Some(CallEvent::Expired(_)) => Some(Code::DeadlineExceeded),
        Some(CallEvent::BranchExpired(..)) => Some(Code::DeadlineExceeded),
        Some(CallEvent::HungUp) => Some(Code::Canceled),
        Some(CallEvent::Drained) => Some(Code::Unavailable),
    }
}

/// The reply's status.
pub fn status(entry: &ReplyEntry) -> u16
    ensures { result ≡ status_told entry.now }
{
    match code(entry) {
        Some(code) => code.status(),
        None => status_alone(entry),
    }
}

/// The status of a reply that tells no error.
fn status_alone(entry: &ReplyEntry) -> u16
    ensures { result ≡ bare_status entry.now }
{
    match entry {
        ReplyEntry::Refused(refusal) => refusal_status(*refusal),
        ReplyEntry::Judged(Verdict::Bare(status), _) => *status,
        _ => 200,
    }
}

fn refusal_status(refusal: Refusal) -> u16
    ensures { result ≡ refusal_status refusal }
{
    match refusal {
        Refusal::HeadTooLarge => 431,
        Refusal::LengthRequired => 411,
        Refusal::BodyTooLarge => 429,
        Refusal::NotAHead | Refusal::BadLength | Refusal::BadHost => 400,
    }
}
