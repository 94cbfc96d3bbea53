//! What the gateway takes of a plan and what will not work as it seems to be meant.
use crate::complaint::Complaint;
use crate::finding::{Finding, Place};
use crate::host::{HostFault, host_fault};
use crate::own_address::is_own;
use crate::plan_fault::{MOST_PLANS, branches_of, is_branch_timeout, text_of};
use crate::spelling::meant_key;
use crate::structure::repeated_key;
use crate::warnings::Warnings;
use serde_json::Value;
use std::alloc::Global;

const PLAN_KEYS: [&str; 4] = ["path", "limit", "timeout_ms", "branches"];

const BRANCH_KEYS: [&str; 5] = ["name", "address", "path", "timeout_ms", "pass"];

/// All keys that are looked at in a plan file or a script.
const FILE_KEYS: [&str; 9] = [
    "path",
    "limit",
    "timeout_ms",
    "branches",
    "name",
    "address",
    "pass",
    "plans",
    "events",
];

const MOST_PORT: u64 = 65_535;

/// Adds the warnings of an array of plans, of as many as a file may have, for a gateway that listens at these
/// addresses.
pub(crate) fn push_plan_warnings(
    alloc: Global,
    warnings: &mut Warnings<'_>,
    plans: &[Value],
    own: &[&str],
) {
    for (k, plan) in plans.iter().take(MOST_PLANS).enumerate() {
        if plan.is_object() {
            let place = Place::Plan(k + 1, plan.get("path"));
            push_warnings_of_plan(alloc, warnings, place, plan, own);
        }
    }
}

fn push_warnings_of_plan<'v>(
    alloc: Global,
    warnings: &mut Warnings<'_>,
    place: Place<'v>,
    plan: &'v Value,
    own: &[&str],
) {
    push_key_warnings(alloc, warnings, place, plan, &PLAN_KEYS);
    push_path_warning(warnings, place, plan);
    let branches = branches_of(plan);
    push_plan_timeout_warning(warnings, place, plan, branches);
    if is_above(plan.get("limit"), branches.len()) {
        let found = Finding::of(
            place,
            "limit",
            plan.get("limit"),
            Complaint::LimitAboveBranches,
        );
        warnings.add(&found);
    }
    for (k, branch) in branches.iter().enumerate() {
        let place = place.branch(k + 1);
        push_key_warnings(alloc, warnings, place, branch, &BRANCH_KEYS);
        push_address_warnings(warnings, place, branch, own);
        push_branch_timeout_warning(warnings, place, plan.get("timeout_ms"), branch);
    }
}

/// Adds a warning for a path that looks like a pattern.
fn push_path_warning<'v>(warnings: &mut Warnings<'_>, place: Place<'v>, plan: &'v Value) {
    let path = text_of(plan, "path");
    if !path.contains('{') && !path.contains('*') {
        return;
    }
    let found = Finding::of(place, "path", None, Complaint::PathOfPattern);
    warnings.add(&found);
}

/// Adds a warning for a plan whose calls may wait for ever, or don't wait at all.
fn push_plan_timeout_warning<'v>(
    warnings: &mut Warnings<'_>,
    place: Place<'v>,
    plan: &'v Value,
    branches: &[Value],
) {
    let timeout = plan.get("timeout_ms");
    if timeout.is_none() && !have_timeouts(branches) {
        warnings.add(&Finding::at(place, Complaint::NoTimeout));
    }
    if timeout.and_then(Value::as_u64) == Some(0) {
        let found = Finding::of(place, "timeout_ms", timeout, Complaint::ZeroTimeout);
        warnings.add(&found);
    }
}

/// Whether each branch, of which there is one at least, has a timeout.
fn have_timeouts(branches: &[Value]) -> bool {
    !branches.is_empty()
        && branches
            .iter()
            .all(|branch| branch.get("timeout_ms").is_some())
}

/// Whether a limit lets more branches out than there are, of which there is one at least.
fn is_above(limit: Option<&Value>, branches: usize) -> bool {
    branches > 0
        && limit
            .and_then(Value::as_u64)
            .is_some_and(|limit| limit > branches as u64)
}

fn push_address_warnings<'v>(
    warnings: &mut Warnings<'_>,
    place: Place<'v>,
    branch: &'v Value,
    own: &[&str],
) {
    let address = text_of(branch, "address");
    for (is_so, complaint) in [
        (address.contains("//"), Complaint::AddressWithSlashes),
        (address.contains('@'), Complaint::AddressWithUser),
        (address.contains(','), Complaint::SeveralAddresses),
        (has_no_port(address), Complaint::NoSuchPort),
        (
            own.iter().any(|own| is_own(address, own)),
            Complaint::OwnAddress,
        ),
    ] {
        if is_so {
            let found = Finding::of(place, "address", branch.get("address"), complaint);
            warnings.add(&found);
        }
    }
    if let Some(fault) = host_fault(address.as_bytes()) {
        let found = Finding::of(place, "address", branch.get("address"), of_host(fault));
        warnings.add(&found);
    }
}

/// What to say of a host that can't be meant.
fn of_host(fault: HostFault) -> Complaint {
    match fault {
        HostFault::Absent => Complaint::NoHost,
        HostFault::Placeholder => Complaint::HostPlaceholder,
        HostFault::Wildcard => Complaint::HostWildcard,
        HostFault::Unbracketed => Complaint::HostUnbracketed,
        HostFault::EmptyLabel => Complaint::HostEmptyLabel,
        HostFault::NoIpv4 => Complaint::HostNoIpv4,
    }
}

/// Adds a warning for a branch that expires no sooner than its call by the timeout of its plan.
fn push_branch_timeout_warning<'v>(
    warnings: &mut Warnings<'_>,
    place: Place<'v>,
    of_plan: Option<&Value>,
    branch: &'v Value,
) {
    let timeout = branch.get("timeout_ms");
    if !is_late(timeout, of_plan) {
        return;
    }
    let found = Finding::of(place, "timeout_ms", timeout, Complaint::LateTimeout);
    warnings.add(&found);
}

/// Whether a branch's timeout is one, and not below its plan's.
fn is_late(timeout: Option<&Value>, of_plan: Option<&Value>) -> bool {
    match (timeout, of_plan.and_then(Value::as_u64)) {
        (Some(timeout), Some(most)) => {
            is_branch_timeout(timeout) && timeout.as_u64().is_some_and(|ms| ms >= most)
        }
        _ => false,
    }
}

/// Whether the number at the end of an address is no port.
fn has_no_port(address: &str) -> bool {
    match address
        .rsplit(':')
        .next()
        .and_then(|port| port.parse::<u64>().ok())
    {
        Some(port) => port == 0 || MOST_PORT < port,
        None => false,
    }
}

/// Adds a warning for each key of an object that is not known, but for those that begin with `_`; with the known one,
/// if it is near to one.
pub(crate) fn push_key_warnings<'v>(
    alloc: Global,
    warnings: &mut Warnings<'_>,
    place: Place<'v>,
    object: &'v Value,
    known: &[&'static str],
) {
    let Some(members) = object.as_object() else {
        return;
    };
    for key in members.keys() {
        let key = key.as_str();
        match meant_key(alloc, key, known) {
            Ok(Some(meant)) => {
                let found = Finding::of(place, key, None, Complaint::MisspelledKey);
                warnings.add(&found.meaning(meant));
            }
            Ok(None) if !key.starts_with('_') && !known.iter().any(|name| *name == key) => {
                warnings.add(&Finding::of(place, key, None, Complaint::IgnoredKey));
            }
            Ok(None) => {}
            Err(_) => warnings.refuse(),
        }
    }
}

/// Adds a warning for the first key of a file's objects that stands twice in its object. The text is JSON.
pub(crate) fn push_repeated_key(alloc: Global, warnings: &mut Warnings<'_>, text: &[u8]) {
    match repeated_key(alloc, text, &FILE_KEYS) {
        Ok(Some(found)) => {
            let place = Place::Text(found.line, found.column);
            warnings.add(&Finding::of(place, found.key, None, Complaint::RepeatedKey));
        }
        Ok(None) => {}
        Err(_) => warnings.refuse(),
    }
}
