//! The plans of a plan file as their JSON has them: of the right shape, and not yet judged.
ghost use Rattle.std.specs.Prelude.{◌≡◌, ◌≤◌, IfOk, IfSome, option_map};
ghost use Rattle.std.specs.Result.{result_err};
ghost use Rattle.serde_json.specs.Find.{as_str};
ghost use Rattle.serde_json.specs.View.{view, items_view};
ghost use Rattle.call_plan.specs.Plan.{plan_fault};
ghost use Rattle.json_values.specs.Json.{text_at};
ghost use Rattle.call_plan.specs.PlanFile.{array_at, whole_number, limit_of, timeout_of, at_least, branch_timeout_of, texts_of, pass_of, branch_of, branches_of, plan_of, entries_of, Reads};

use crate::branch::Branch;
use crate::error::PlanError;
use crate::field_names::FieldNames;
use crate::plan::Plan;
use http_pieces::{MAX_DECIMAL, Text};
use json_values::text_at;
use serde_json::Value;
use std::alloc::Global;
use std::marker::Model;

const MAX_LIMIT: u64 = 4_294_967_295;

// The parts of a plan.
#[derive(Debug, Drop)]
pub(crate) struct Draft {
    path: Text,
    limit: u32,
    timeout_ms: Option<u64>,
    branches: Vec<Branch>,
}

impl Model for Draft {
    ghost use Rattle.call_plan.specs.Plan.{PlanRecord};

    ghost Value = { PlanRecord };

    ghost view = { λ d.
        record { path = d.path; limit = d.limit; timeout = d.timeout_ms; branches = d.branches.items } };
}

impl Draft {
    fn read(alloc: Global, entry: &Value) -> Result<Draft, PlanError>
        ensures { Reads (λ d. d) (plan_of (view entry.now)) result }
    {
        let path = read_text(alloc, entry, "path")?;
        let limit = limit_of(entry).ok_or(PlanError::NotAPlan)?;
        let timeout_ms = timeout_of(entry).ok_or(PlanError::NotAPlan)?;
        let branches = read_branches(alloc, entry)?;
        Ok(Draft {
            path,
            limit,
            timeout_ms,
            branches,
        })
    }

    // Judges the draft.
    pub(crate) fn into_plan(self) -> Result<Plan, PlanError>
        ensures accepted { IfOk result (λ p. p ≡ self) }
        ensures refused { result_err result ≡ plan_fault self }
    {
        let Draft {
            path,
            limit,
            timeout_ms,
            branches,
        } = self;
        Plan::new(path, limit, timeout_ms, branches)
    }
}

// The drafts of an array of plans.
pub(crate) fn read_drafts(alloc: Global, value: &Value) -> Result<Vec<Draft>, PlanError>
    ensures { Reads (λ v. v.items) (entries_of (view value.now)) result }
{
    let entries = value.as_array().ok_or(PlanError::NotAPlan)?;
    let mut drafts = Vec::new(alloc);
    for entry in entries {
        drafts.push(Draft::read(alloc, entry)?)?;
    }
    Ok(drafts)
}

fn read_branches(alloc: Global, entry: &Value) -> Result<Vec<Branch>, PlanError>
    ensures { Reads (λ v. v.items) (branches_of (view entry.now)) result }
{
    let entries = array_at(entry, "branches").ok_or(PlanError::NotAPlan)?;
    let mut branches = Vec::new(alloc);
    for entry in entries {
        branches.push(read_branch(alloc, entry)?)?;
    }
    Ok(branches)
}

fn read_branch(alloc: Global, entry: &Value) -> Result<Branch, PlanError>
    ensures { Reads (λ b. b) (branch_of (view entry.now)) result }
{
    let name = read_text(alloc, entry, "name")?;
    let address = read_text(alloc, entry, "address")?;
    let path = read_text(alloc, entry, "path")?;
    let timeout_ms = branch_timeout_of(entry).ok_or(PlanError::NotAPlan)?;
    let pass = read_pass(alloc, entry)?;
    Ok(Branch {
        name,
        address,
        path,
        timeout_ms,
        pass,
    })
}

fn read_pass(alloc: Global, entry: &Value) -> Result<FieldNames, PlanError>
    ensures { Reads (λ p. p) (pass_of (view entry.now)) result }
{
    match entry.get("pass") {
        None => Ok(FieldNames::from_vec(Vec::new(alloc))),
        Some(value) => Ok(FieldNames::from_vec(read_texts(alloc, value)?)),
    }
}

// The texts of an array.
fn read_texts(alloc: Global, value: &Value) -> Result<Vec<Text>, PlanError>
    ensures { Reads (λ v. v.items) (texts_of (view value.now)) result }
{
    let entries = value.as_array().ok_or(PlanError::NotAPlan)?;
    let mut texts = Vec::new(alloc);
    for entry in entries {
        texts.push(text_of(alloc, entry)?)?;
    }
    Ok(texts)
}

fn text_of(alloc: Global, value: &Value) -> Result<Text, PlanError>
    ensures { Reads (λ t. t) (as_str (view value.now)) result }
{
    let text = value.as_str().ok_or(PlanError::NotAPlan)?;
    Ok(Text::from_str(alloc, text)?)
}

fn read_text(alloc: Global, entry: &Value, key: &str) -> Result<Text, PlanError>
    ensures { Reads (λ t. t) (text_at key.now (view entry.now)) result }
{
    let text = text_at(entry, key).ok_or(PlanError::NotAPlan)?;
    Ok(Text::from_str(alloc, text)?)
}

#[tactic(auto, unfolding(crate::specs::PlanFile::array_at))]
fn array_at<'v>(entry: &'v Value, key: &str) -> Option<&'v Vec<Value>>
    ensures { option_map (λ v. items_view v.now.items) result ≡ array_at key.now (view entry.now) }
{
    entry.get(key).and_then(Value::as_array)
}

#[tactic(auto, unfolding(crate::specs::PlanFile::limit_of))]
fn limit_of(entry: &Value) -> Option<u32>
    ensures { result ≡ limit_of (view entry.now) }
{
    let limit = whole_number(entry.get("limit")?, MAX_LIMIT)?;
    Some(limit as u32)
}

#[tactic(auto, unfolding(crate::specs::PlanFile::timeout_of))]
fn timeout_of(entry: &Value) -> Option<Option<u64>>
    ensures { result ≡ timeout_of (view entry.now) }
{
    match entry.get("timeout_ms") {
        None => Some(None),
        Some(timeout_ms) => whole_number(timeout_ms, MAX_DECIMAL).map(Some),
    }
}

#[tactic(auto, unfolding(crate::specs::PlanFile::branch_timeout_of))]
fn branch_timeout_of(entry: &Value) -> Option<Option<u64>>
    ensures { result ≡ branch_timeout_of (view entry.now) }
{
    match entry.get("timeout_ms") {
        None => Some(None),
        Some(timeout_ms) => at_least_one(whole_number(timeout_ms, MAX_DECIMAL)?).map(Some),
    }
}

fn at_least_one(number: u64) -> Option<u64>
    ensures { result ≡ at_least 1 number }
{
    if number >= 1 { Some(number) } else { None }
}

// `as_u64` gives what is written in digits alone: `-0`, `1.0` and `1e2` are kept as floats.
#[tactic(auto, unfolding(crate::specs::PlanFile::whole_number))]
fn whole_number(value: &Value, greatest: u64) -> Option<u64>
    ensures value { result ≡ whole_number greatest (view value.now) }
    ensures bound { IfSome result (λ n. n ≤ greatest) }
{
    let number = value.as_u64()?;
    if number <= greatest {
        Some(number)
    } else {
        None
    }
}
