//! The first fault of a script's value, in the order in which `read_script` judges: the shape of the whole, the plans,
//! and then the events.
use crate::complaint::Complaint;
use crate::event_fault::{elements_of, first_event_fault};
use crate::finding::{Finding, Place};
use crate::plan_fault::plans_fault;
use serde_json::Value;

pub(crate) fn script_fault(value: &Value) -> Option<Finding<'_>> {
    if !value.is_object() {
        return Some(Finding::of(Place::File, "", Some(value), Complaint::NotAScript));
    }
    array_fault(value, "plans")
        .or(array_fault(value, "events"))
        .or(first_no_array(events_of(value)))
        .or(value.get("plans").and_then(plans_fault))
        .or(first_event_fault(events_of(value)))
}

/// The events of a script; none where it is of another shape.
pub(crate) fn events_of(script: &Value) -> &[Value] {
    match script.get("events") {
        Some(events) => elements_of(events),
        None => &[],
    }
}

/// The plans of a script; none where it is of another shape.
pub(crate) fn plans_of(script: &Value) -> &[Value] {
    match script.get("plans") {
        Some(plans) => elements_of(plans),
        None => &[],
    }
}

fn array_fault<'v>(script: &'v Value, key: &'static str) -> Option<Finding<'v>> {
    match script.get(key) {
        None => Some(Finding::of(Place::File, key, None, Complaint::Missing)),
        Some(value) if value.is_array() => None,
        value => Some(Finding::of(Place::File, key, value, Complaint::NotAnArray)),
    }
}

fn first_no_array(events: &[Value]) -> Option<Finding<'_>> {
    for (k, event) in events.iter().enumerate() {
        if !event.is_array() {
            return Some(Finding::of(Place::Event(k), "", Some(event), Complaint::NotAnArray));
        }
    }
    None
}
