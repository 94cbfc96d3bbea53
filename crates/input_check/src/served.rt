use crate::lines::{Lines, push_count, push_shown};
use crate::plan_fault::text_of;
use call_plan::{Plan, Plans};
use http_pieces::Text;
use itoa::Buffer;
use serde_json::Value;

/// Adds how many there are, as `2 plans`.
pub(crate) fn push_number(lines: &mut Lines<'_>, count: usize, one: &str, more: &str) {
    push_count(lines, "", count);
    lines.push_str(if count == 1 { one } else { more });
}

/// Adds what the plans serve, a line for each plan and one for each of its branches. The entries are those that the
/// plans were read of, and give the order.
pub(crate) fn push_served(lines: &mut Lines<'_>, plans: &Plans, entries: &[Value]) {
    for (k, entry) in entries.iter().enumerate() {
        if let Some(plan) = plans.find(text_of(entry, "path").as_bytes()) {
            push_served_plan(lines, k + 1, plan);
        }
    }
}

fn push_served_plan(lines: &mut Lines<'_>, number: usize, plan: &Plan) {
    push_count(lines, "plan ", number);
    lines.push_str(" (");
    push_shown(lines, plan.path());
    push_count(lines, "): limit ", plan.limit() as usize);
    match plan.timeout() {
        Some(ms) => push_ms(lines, ms),
        None => lines.push_str(", no timeout"),
    }
    lines.push_str("\n");
    for branch in plan.branches() {
        lines.push_str("    ");
        push_shown(lines, branch.name.as_str());
        lines.push_str(": ");
        push_shown(lines, branch.address.as_str());
        lines.push_str(" ");
        push_shown(lines, branch.path.as_str());
        if let Some(ms) = branch.timeout_ms {
            push_ms(lines, ms);
        }
        push_passed(lines, branch.pass.as_slice());
        lines.push_str("\n");
    }
}

/// Adds the names of the fields that a branch passes on, if it passes any.
fn push_passed(lines: &mut Lines<'_>, names: &[Text]) {
    for (place, name) in names.iter().enumerate() {
        lines.push_str(if place == 0 { ", passes " } else { ", " });
        push_shown(lines, name.as_str());
    }
}

fn push_ms(lines: &mut Lines<'_>, ms: u64) {
    let mut buffer = Buffer::new();
    lines.push_str(", timeout ");
    lines.push_str(buffer.format(ms));
    lines.push_str(" ms");
}
