//! What is wrong with the names of the fields that a branch passes on.
use crate::complaint::Complaint;
use crate::finding::{Finding, Place};
use call_plan::{is_field_name, is_kept_back};
use http_pieces::same_name;
use serde_json::Value;

const MOST_NAMES: usize = 16;

/// Of the shape: an array of texts, if the key is there.
pub(crate) fn pass_shape_fault<'v>(place: Place<'v>, branch: &'v Value) -> Option<Finding<'v>> {
    let value = branch.get("pass")?;
    let Some(names) = value.as_array() else {
        return Some(Finding::of(place, "pass", Some(value), Complaint::NotTexts));
    };
    for name in names {
        if !name.is_string() {
            return Some(Finding::of(place, "pass", Some(name), Complaint::NotAText));
        }
    }
    None
}

/// Of the rules, at the first of the branches that breaks one.
pub(crate) fn first_pass_fault<'v>(place: Place<'v>, branches: &'v [Value]) -> Option<Finding<'v>> {
    for (k, branch) in branches.iter().enumerate() {
        let found = pass_fault(place.branch(k + 1), names_of(branch));
        if found.is_some() {
            return found;
        }
    }
    None
}

fn pass_fault<'v>(place: Place<'v>, names: &'v [Value]) -> Option<Finding<'v>> {
    if names.len() > MOST_NAMES {
        return Some(Finding::of(
            place,
            "pass",
            names.get(MOST_NAMES),
            Complaint::TooManyFields,
        ));
    }
    for (k, name) in names.iter().enumerate() {
        if let Some(complaint) = name_fault(&names[..k], name) {
            return Some(Finding::of(place, "pass", Some(name), complaint));
        }
    }
    None
}

fn name_fault(before: &[Value], value: &Value) -> Option<Complaint> {
    let name = text_in(value);
    if !is_field_name(name) {
        Some(Complaint::BadFieldName)
    } else if is_kept_back(name) {
        Some(Complaint::FieldKeptBack)
    } else if before.iter().any(|other| same_name(text_in(other).as_bytes(), name.as_bytes())) {
        Some(Complaint::RepeatedField)
    } else {
        None
    }
}

/// The names that a branch has; none where it has no array of them.
fn names_of(branch: &Value) -> &[Value] {
    match branch.get("pass").and_then(Value::as_array) {
        Some(names) => names.as_slice(),
        None => &[],
    }
}

fn text_in(value: &Value) -> &str {
    value.as_str().unwrap_or("")
}
