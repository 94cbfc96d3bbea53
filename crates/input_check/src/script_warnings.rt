//! What is taken of a script and what will not work as it seems to be meant.
use crate::complaint::Complaint;
use crate::finding::{Finding, Place};
use crate::form::Form;
use crate::plan_warnings::{push_key_warnings, push_plan_warnings};
use crate::script_fault::{events_of, plans_of};
use crate::warnings::Warnings;
use serde_json::Value;
use std::alloc::Global;

const SCRIPT_KEYS: [&str; 2] = ["plans", "events"];

/// Adds the warnings of a script.
pub(crate) fn push_script_warnings(alloc: Global, warnings: &mut Warnings<'_>, script: &Value) {
    push_key_warnings(alloc, warnings, Place::File, script, &SCRIPT_KEYS);
    push_plan_warnings(alloc, warnings, plans_of(script), &[]);
    for (k, event) in events_of(script).iter().enumerate() {
        if has_bare_lf(event) {
            let found = Finding::at(Place::FormedEvent(k, Form::Piece), Complaint::BareLf);
            warnings.add(&found);
        }
    }
}

/// Whether an event is a piece with the first line of a head in it, and a line up to the head's end ends in LF alone.
fn has_bare_lf(event: &Value) -> bool {
    if event.get(0).and_then(Value::as_str) != Some("piece") {
        return false;
    }
    let text = event.get(2).and_then(Value::as_str).unwrap_or("");
    let head = match text.split_once("\r\n\r\n") {
        Some((head, _body)) => head,
        None => text,
    };
    head.contains(" HTTP/1.") && ends_line_in_lf(head.as_bytes())
}

fn ends_line_in_lf(head: &[u8]) -> bool {
    let mut before = 0;
    for byte in head {
        if *byte == b'\n' && before != b'\r' {
            return true;
        }
        before = *byte;
    }
    false
}
