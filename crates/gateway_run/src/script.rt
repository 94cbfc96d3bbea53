ghost use Rattle.std.specs.Prelude.{◌≡◌, ◌≢◌, ◌≤◌, IfOk, IfErr, IfSome, option_map, Ok, Err};
ghost use Rattle.serde_json.specs.View.{view, items_view};
ghost use Rattle.gateway_run.specs.Script.{are_arrays, has_length, has_form, text_at, number_at, status_at, content_type_at, piece_of, branch_result_of, reply_of, result_of, event_of, events_from, entries_of, plan_list_of, script_of, script_in};
ghost use Rattle.gateway_run.specs.declared.fault.ScriptError.TheVariants.{Memory};

use crate::fault::ScriptError;
use call_plan::{Plans, plans_of};
use connect_codec::outcome;
use gateway_model::Event;
use http::StatusCode;
use http_pieces::{Bytes, HttpReply};
use json_values::json_value;
use serde_json::Value;
use std::alloc::{AllocError, Global};

const MAX_BRANCH: u64 = 4_294_967_295;

/// The plans and events of a script: a JSON object (RFC 8259, as `serde_json` reads it, with arrays and objects at
/// most 127 deep) with the keys `plans`, an array as of a plan file, and `events`, an array of arrays. Other keys are
/// ignored.
///
/// An event is `["open"]`, `["piece",c,text]`, `["hangup",c]`, `["moment",m]`,
/// `["result",c,k,branch,status,type,body]`, `["lost",c,k,branch]`, `["drain"]` or `["close",c]`: c, k and branch are
/// the numbers of a connection, of a request on it and of a branch, m is a moment in milliseconds, status is from 200
/// to 999, and type is a text or null.
///
/// `NotAScript` for a text that is no UTF-8, no JSON or no such object; then the fault of the plans, as `plans_of`
/// finds it; then `BadEvent` with the place of the first entry that is no event. `Memory` may stand in place of any.
#[tactic(auto, unfolding(crate::specs::Script::script_in))]
pub fn read_script(alloc: Global, text: &[u8]) -> Result<(Plans, Vec<Event>), ScriptError>
    ensures read { IfOk result (λ s. script_in text.now ≡ Ok (s.0, s.1.items)) }
    ensures refused { IfErr result (λ e. e ≢ Memory → script_in text.now ≡ Err e) }
{
    match json_value(alloc, text)? {
        Some(script) => script_of(alloc, &script),
        None => Err(ScriptError::NotAScript),
    }
}

fn script_of(alloc: Global, script: &Value) -> Result<(Plans, Vec<Event>), ScriptError>
    ensures read { IfOk result (λ s. script_of (view script.now) ≡ Ok (s.0, s.1.items)) }
    ensures refused { IfErr result (λ e. e ≢ Memory → script_of (view script.now) ≡ Err e) }
{
    let Some(plans) = plan_list_of(script) else {
        return Err(ScriptError::NotAScript);
    };
    let Some(entries) = entries_of(script) else {
        return Err(ScriptError::NotAScript);
    };
    let plans = plans_of(alloc, plans)?;
    let events = read_events(alloc, entries.as_slice())?;
    Ok((plans, events))
}

#[tactic(auto, unfolding(crate::specs::Script::plan_list_of))]
fn plan_list_of(script: &Value) -> Option<&Value>
    ensures { option_map (λ v. view v.now) result ≡ plan_list_of (view script.now) }
{
    let plans = script.get("plans")?;
    if plans.is_array() { Some(plans) } else { None }
}

#[tactic(auto, unfolding(crate::specs::Script::entries_of))]
fn entries_of(script: &Value) -> Option<&Vec<Value>>
    ensures { option_map (λ v. items_view v.now.items) result ≡ entries_of (view script.now) }
{
    let entries = script.get("events").and_then(Value::as_array)?;
    if are_arrays(entries.as_slice()) {
        Some(entries)
    } else {
        None
    }
}

fn are_arrays(entries: &[Value]) -> bool
    ensures { result ≡ are_arrays (items_view entries.now) }
{
    for entry in entries {
        if !entry.is_array() {
            return false;
        }
    }
    true
}

fn read_events(alloc: Global, entries: &[Value]) -> Result<Vec<Event>, ScriptError>
    ensures read { IfOk result (λ events. events_from 0 (items_view entries.now) ≡ Ok events.items) }
    ensures refused { IfErr result (λ e. e ≢ Memory → events_from 0 (items_view entries.now) ≡ Err e) }
{
    let mut events = Vec::new(alloc);
    for entry in entries {
        // Each entry before this one gave one event.
        let Some(event) = event_of(alloc, entry)? else {
            return Err(ScriptError::BadEvent(events.len()));
        };
        events.push(event)?;
    }
    Ok(events)
}

#[tactic(auto, unfolding(crate::specs::Script::event_of))]
fn event_of(alloc: Global, entry: &Value) -> Result<Option<Event>, AllocError>
    ensures { IfOk result (λ event. event ≡ event_of (view entry.now)) }
{
    if has_form(entry, "open", 1) {
        Ok(Some(Event::Opening))
    } else if has_form(entry, "piece", 3) {
        piece_of(alloc, entry)
    } else if has_form(entry, "hangup", 2) {
        Ok(number_at(entry, 1, u64::MAX).map(Event::HangUp))
    } else if has_form(entry, "moment", 2) {
        Ok(number_at(entry, 1, u64::MAX).map(Event::Moment))
    } else if has_form(entry, "result", 7) {
        result_of(alloc, entry)
    } else if has_form(entry, "lost", 4) {
        branch_result_of(alloc, None, entry)
    } else if has_form(entry, "drain", 1) {
        Ok(Some(Event::Drain))
    } else if has_form(entry, "close", 2) {
        Ok(number_at(entry, 1, u64::MAX).map(Event::Closing))
    } else {
        Ok(None)
    }
}

#[tactic(auto, unfolding(crate::specs::Script::piece_of))]
fn piece_of(alloc: Global, entry: &Value) -> Result<Option<Event>, AllocError>
    ensures { IfOk result (λ event. event ≡ piece_of (view entry.now)) }
{
    let Some(conn) = number_at(entry, 1, u64::MAX) else {
        return Ok(None);
    };
    let Some(text) = text_at(entry, 2) else {
        return Ok(None);
    };
    let bytes = Bytes::from_slice(alloc, text.as_bytes())?;
    Ok(Some(Event::Piece(conn, bytes)))
}

#[tactic(auto, unfolding(crate::specs::Script::result_of))]
fn result_of(alloc: Global, entry: &Value) -> Result<Option<Event>, AllocError>
    ensures { IfOk result (λ event. event ≡ result_of (view entry.now)) }
{
    let Some(reply) = reply_of(alloc, entry)? else {
        return Ok(None);
    };
    branch_result_of(alloc, Some(reply), entry)
}

#[tactic(auto, unfolding(crate::specs::Script::branch_result_of))]
fn branch_result_of(
    alloc: Global,
    reply: Option<HttpReply>,
    entry: &Value,
) -> Result<Option<Event>, AllocError>
    ensures { IfOk result (λ event. event ≡ branch_result_of reply (view entry.now)) }
{
    let Some(conn) = number_at(entry, 1, u64::MAX) else {
        return Ok(None);
    };
    let Some(request) = number_at(entry, 2, u64::MAX) else {
        return Ok(None);
    };
    let Some(branch) = number_at(entry, 3, MAX_BRANCH) else {
        return Ok(None);
    };
    let outcome = outcome(alloc, reply)?;
    Ok(Some(Event::BranchResult(conn, request, branch as u32, outcome)))
}

#[tactic(auto, unfolding(crate::specs::Script::reply_of))]
fn reply_of(alloc: Global, entry: &Value) -> Result<Option<HttpReply>, AllocError>
    ensures { IfOk result (λ reply. reply ≡ reply_of (view entry.now)) }
{
    let Some(status) = status_at(entry, 4) else {
        return Ok(None);
    };
    let Some(content_type) = content_type_at(entry, 5) else {
        return Ok(None);
    };
    let Some(body) = text_at(entry, 6) else {
        return Ok(None);
    };
    let content_type = match content_type {
        Some(content_type) => Some(Bytes::from_slice(alloc, content_type.as_bytes())?),
        None => None,
    };
    let body = Bytes::from_slice(alloc, body.as_bytes())?;
    Ok(Some(HttpReply {
        status,
        content_type,
        closes: false,
        body,
    }))
}

#[tactic(auto, unfolding(crate::specs::Script::has_form))]
fn has_form(entry: &Value, word: &str, length: usize) -> bool
    ensures { result ≡ has_form word.now length (view entry.now) }
{
    has_length(entry, length) && text_at(entry, 0).is_some_and(|first| first == word)
}

#[tactic(auto, unfolding(crate::specs::Script::has_length))]
fn has_length(entry: &Value, length: usize) -> bool
    ensures { result ≡ has_length length (view entry.now) }
{
    match entry.as_array() {
        Some(elements) => elements.as_slice().len() == length,
        None => false,
    }
}

#[tactic(auto, unfolding(crate::specs::Script::text_at))]
fn text_at(entry: &Value, place: usize) -> Option<&str>
    ensures { option_map (λ s. s.now) result ≡ text_at place (view entry.now) }
{
    entry.get(place).and_then(Value::as_str)
}

// `as_u64` gives what is written in digits alone: `-0`, `1.0` and `1e2` are kept as floats.
#[tactic(auto, unfolding(crate::specs::Script::number_at, call_plan::specs::PlanFile::whole_number))]
fn number_at(entry: &Value, place: usize, greatest: u64) -> Option<u64>
    ensures value { result ≡ number_at greatest place (view entry.now) }
    ensures bound { IfSome result (λ n. n ≤ greatest) }
{
    let number = entry.get(place)?.as_u64()?;
    if number <= greatest {
        Some(number)
    } else {
        None
    }
}

#[tactic(auto, unfolding(crate::specs::Script::status_at))]
fn status_at(entry: &Value, place: usize) -> Option<StatusCode>
    ensures { result ≡ status_at place (view entry.now) }
{
    let status = number_at(entry, place, 999)?;
    if status < 200 {
        return None;
    }
    StatusCode::from_u16(status as u16).ok()
}

#[tactic(auto, unfolding(crate::specs::Script::content_type_at))]
fn content_type_at(entry: &Value, place: usize) -> Option<Option<&str>>
    ensures { option_map (λ content_type. option_map (λ s. s.now) content_type) result
        ≡ content_type_at place (view entry.now) }
{
    let value = entry.get(place)?;
    if value.is_null() {
        Some(None)
    } else {
        value.as_str().map(Some)
    }
}
