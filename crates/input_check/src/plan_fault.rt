//! The first fault of a plan file's value, in the order in which `plans_of` judges: the shape of the whole array, and
//! then plan by plan.
use crate::complaint::Complaint;
use crate::finding::{Finding, Place};
use crate::pass_fault::{first_pass_fault, pass_shape_fault};
use call_plan::{is_address, is_name, is_path};
use serde_json::Value;

const MOST_LIMIT: u64 = 4_294_967_295;

const MOST_TIMEOUT: u64 = 9_999_999_999;

const MOST_BRANCHES: usize = 16;

pub(crate) const MOST_PLANS: usize = 256;

pub(crate) fn plans_fault(value: &Value) -> Option<Finding<'_>> {
    let Some(plans) = value.as_array() else {
        return Some(Finding::of(Place::File, "", Some(value), Complaint::NotPlans));
    };
    first_of_shape(plans.as_slice()).or(first_of_rules(plans.as_slice()))
}

fn first_of_shape(plans: &[Value]) -> Option<Finding<'_>> {
    for (place, plan) in plans.iter().enumerate() {
        let found = shape_fault(Place::Plan(place + 1, plan.get("path")), plan);
        if found.is_some() {
            return found;
        }
    }
    None
}

/// Of one plan.
fn shape_fault<'v>(place: Place<'v>, plan: &'v Value) -> Option<Finding<'v>> {
    if !plan.is_object() {
        return Some(Finding::of(place, "", Some(plan), Complaint::NotAnObject));
    }
    text_fault(place, plan, "path")
        .or(limit_fault(place, plan))
        .or(timeout_fault(place, plan))
        .or(branches_fault(place, plan))
}

fn text_fault<'v>(place: Place<'v>, object: &'v Value, key: &'static str) -> Option<Finding<'v>> {
    match object.get(key) {
        None => Some(Finding::of(place, key, None, Complaint::Missing)),
        Some(value) if value.is_string() => None,
        value => Some(Finding::of(place, key, value, Complaint::NotAText)),
    }
}

fn limit_fault<'v>(place: Place<'v>, plan: &'v Value) -> Option<Finding<'v>> {
    match plan.get("limit") {
        None => Some(Finding::of(place, "limit", None, Complaint::Missing)),
        Some(value) if value.as_u64().is_some_and(|n| n <= MOST_LIMIT) => None,
        value => Some(Finding::of(place, "limit", value, Complaint::NotALimit)),
    }
}

fn timeout_fault<'v>(place: Place<'v>, plan: &'v Value) -> Option<Finding<'v>> {
    match plan.get("timeout_ms") {
        None => None,
        Some(value) if value.as_u64().is_some_and(|n| n <= MOST_TIMEOUT) => None,
        value => Some(Finding::of(place, "timeout_ms", value, Complaint::NotATimeout)),
    }
}

fn branches_fault<'v>(place: Place<'v>, plan: &'v Value) -> Option<Finding<'v>> {
    let Some(value) = plan.get("branches") else {
        return Some(Finding::of(place, "branches", None, Complaint::Missing));
    };
    let Some(branches) = value.as_array() else {
        return Some(Finding::of(place, "branches", Some(value), Complaint::NotAnArray));
    };
    for (k, branch) in branches.iter().enumerate() {
        let found = branch_shape_fault(place.branch(k + 1), branch);
        if found.is_some() {
            return found;
        }
    }
    None
}

fn branch_shape_fault<'v>(place: Place<'v>, branch: &'v Value) -> Option<Finding<'v>> {
    if !branch.is_object() {
        return Some(Finding::of(place, "", Some(branch), Complaint::NotAnObject));
    }
    text_fault(place, branch, "name")
        .or(text_fault(place, branch, "address"))
        .or(text_fault(place, branch, "path"))
        .or(branch_timeout_fault(place, branch))
        .or(pass_shape_fault(place, branch))
}

fn branch_timeout_fault<'v>(place: Place<'v>, branch: &'v Value) -> Option<Finding<'v>> {
    match branch.get("timeout_ms") {
        None => None,
        Some(value) if is_branch_timeout(value) => None,
        value => Some(Finding::of(place, "timeout_ms", value, Complaint::NotABranchTimeout)),
    }
}

/// Whether a value is a timeout that a branch may have.
pub(crate) fn is_branch_timeout(value: &Value) -> bool {
    value.as_u64().is_some_and(|n| 1 <= n && n <= MOST_TIMEOUT)
}

fn first_of_rules(plans: &[Value]) -> Option<Finding<'_>> {
    for (k, plan) in plans.iter().enumerate() {
        let place = Place::Plan(k + 1, plan.get("path"));
        let found = rule_fault(place, plan)
            .or(repeated_path(place, &plans[..k], plan))
            .or(one_too_many(place, k));
        if found.is_some() {
            return found;
        }
    }
    None
}

/// Of one plan by itself.
fn rule_fault<'v>(place: Place<'v>, plan: &'v Value) -> Option<Finding<'v>> {
    let branches = branches_of(plan);
    path_fault(place, plan)
        .or(first_target_fault(place, branches))
        .or(first_pass_fault(place, branches))
        .or(first_name_fault(place, branches))
        .or(count_fault(place, branches))
        .or(zero_limit(place, plan))
        .or(repeated_name(place, branches))
}

/// The branches of a plan; none where it is of another shape.
pub(crate) fn branches_of(plan: &Value) -> &[Value] {
    match plan.get("branches").and_then(Value::as_array) {
        Some(branches) => branches.as_slice(),
        None => &[],
    }
}

/// The text at a key; empty where there is none.
pub(crate) fn text_of<'v>(object: &'v Value, key: &str) -> &'v str {
    object.get(key).and_then(Value::as_str).unwrap_or("")
}

fn path_fault<'v>(place: Place<'v>, object: &'v Value) -> Option<Finding<'v>> {
    if is_path(text_of(object, "path")) {
        return None;
    }
    Some(Finding::of(place, "path", object.get("path"), Complaint::BadPath))
}

fn first_target_fault<'v>(place: Place<'v>, branches: &'v [Value]) -> Option<Finding<'v>> {
    for (k, branch) in branches.iter().enumerate() {
        let place = place.branch(k + 1);
        if !is_address(text_of(branch, "address")) {
            return Some(Finding::of(
                place,
                "address",
                branch.get("address"),
                Complaint::BadAddress,
            ));
        }
        let found = path_fault(place, branch);
        if found.is_some() {
            return found;
        }
    }
    None
}

fn first_name_fault<'v>(place: Place<'v>, branches: &'v [Value]) -> Option<Finding<'v>> {
    for (k, branch) in branches.iter().enumerate() {
        if !is_name(text_of(branch, "name")) {
            return Some(Finding::of(
                place.branch(k + 1),
                "name",
                branch.get("name"),
                Complaint::BadName,
            ));
        }
    }
    None
}

fn count_fault<'v>(place: Place<'v>, branches: &'v [Value]) -> Option<Finding<'v>> {
    if branches.is_empty() {
        Some(Finding::at(place, Complaint::NoBranch))
    } else if branches.len() > MOST_BRANCHES {
        Some(Finding::at(place.branch(MOST_BRANCHES + 1), Complaint::TooManyBranches))
    } else {
        None
    }
}

fn zero_limit<'v>(place: Place<'v>, plan: &'v Value) -> Option<Finding<'v>> {
    let limit = plan.get("limit");
    if limit.and_then(Value::as_u64) == Some(0) {
        return Some(Finding::of(place, "limit", limit, Complaint::ZeroLimit));
    }
    None
}

/// At the earliest branch whose name an earlier one has.
fn repeated_name<'v>(place: Place<'v>, branches: &'v [Value]) -> Option<Finding<'v>> {
    for (k, branch) in branches.iter().enumerate() {
        if has_text(&branches[..k], "name", text_of(branch, "name")) {
            let place = place.branch(k + 1);
            return Some(Finding::of(place, "name", branch.get("name"), Complaint::RepeatedName));
        }
    }
    None
}

fn repeated_path<'v>(place: Place<'v>, before: &[Value], plan: &'v Value) -> Option<Finding<'v>> {
    if has_text(before, "path", text_of(plan, "path")) {
        return Some(Finding::of(place, "path", plan.get("path"), Complaint::RepeatedPath));
    }
    None
}

/// Whether one of the objects has that text at a key.
fn has_text(objects: &[Value], key: &str, text: &str) -> bool {
    objects.iter().any(|object| text_of(object, key) == text)
}

/// So many plans stand before this one.
fn one_too_many(place: Place<'_>, before: usize) -> Option<Finding<'_>> {
    if before >= MOST_PLANS {
        return Some(Finding::at(place, Complaint::TooManyPlans));
    }
    None
}
