ghost use Rattle.std.specs.Prelude.{◌≡◌, ◌≤◌, ◌++◌, length, IfOk, IfSome, OnOk, bytes_eq};
ghost use Rattle.http_pieces.specs.declared.largest.TheConstants.{MAX_DECIMAL};
ghost use Rattle.std.specs.List.{list_all, list_any};
ghost use Rattle.std.specs.Result.{result_err};
ghost use Rattle.call_plan.specs.Plan.{IsLawful, has_pass, has_target, has_time, has_name, is_well_formed, names, has_repeat, plan_fault, time_of, member_text, join_text};

use crate::branch::Branch;
use crate::error::PlanError;
use crate::pass::may_pass;
use crate::rules;
use http_pieces::{Bytes, MAX_DECIMAL, Text};
use std::alloc::{AllocError, Global};
use std::marker::Model;

const MAX_BRANCHES: usize = 16;

/// What one path of the gateway asks: its branches, and how many of them may be out at a time.
///
/// Contracts see a `PlanRecord`. Each plan that exists is lawful.
#[derive(Debug, Drop)]
pub struct Plan {
    path: Text,
    limit: u32,
    timeout_ms: Option<u64>,
    branches: Vec<Branch>,
}

impl Model for Plan {
    ghost use Rattle.call_plan.specs.Plan.{PlanRecord, IsLawful};

    ghost Value = { PlanRecord };

    ghost view = { λ p.
        record { path = p.path; limit = p.limit; timeout = p.timeout_ms; branches = p.branches.items } };

    ghost invariant = { λ p. IsLawful
        (record { path = p.path; limit = p.limit; timeout = p.timeout_ms; branches = p.branches.items }) };
}

impl Plan {
    /// The plan, or the first fault of `NotAPlan`, `BadName`, `NoBranch`, `TooManyBranches`, `ZeroLimit` and
    /// `RepeatedName`. What is refused is dropped.
    pub fn new(
        path: Text,
        limit: u32,
        timeout_ms: Option<u64>,
        branches: Vec<Branch>,
    ) -> Result<Plan, PlanError>
        ensures accepted { IfOk result (λ p.
            p ≡ record { path = path; limit = limit; timeout = timeout_ms; branches = branches.items }) }
        ensures refused { result_err result ≡ plan_fault
            (record { path = path; limit = limit; timeout = timeout_ms; branches = branches.items }) }
    {
        check_rules(path.as_str(), limit, timeout_ms, branches.as_slice())?;
        Ok(Plan {
            path,
            limit,
            timeout_ms,
            branches,
        })
    }

    /// The path that names the plan in a request.
    pub fn path(&self) -> &str
        ensures path { result.now ≡ self.now.path }
        ensures lawful { IsLawful self.now }
    {
        self.path.as_str()
    }

    /// How many branches of one call may be out at a time, at least 1.
    pub fn limit(&self) -> u32
        ensures limit { result ≡ self.now.limit }
        ensures lawful { IsLawful self.now }
    {
        self.limit
    }

    /// How long a call may take, in milliseconds.
    pub fn timeout(&self) -> Option<u64>
        ensures timeout { result ≡ self.now.timeout }
        ensures lawful { IsLawful self.now }
    {
        self.timeout_ms
    }

    /// How long the branch of that number may take from its start, in milliseconds, 1 to 9,999,999,999, if it has a
    /// time of its own.
    pub fn branch_timeout(&self, branch: usize) -> Option<u64>
        ensures timeout { result ≡ time_of self.now branch }
        ensures range { IfSome result (λ ms. (1 ≤ ms) × (ms ≤ MAX_DECIMAL)) }
    {
        match self.branches.get(branch) {
            Some(branch) => branch.timeout_ms,
            None => None,
        }
    }

    /// The branches, in declared order: 1 to 16.
    pub fn branches(&self) -> &[Branch]
        ensures branches { result.now ≡ self.now.branches }
        ensures lawful { IsLawful self.now }
    {
        self.branches.as_slice()
    }

    /// The joined answers, one per branch: `{`, then `"name":` and the answer's own bytes for each branch in
    /// declared order, commas between, then `}`.
    pub fn join(&self, alloc: Global, answers: &[Bytes]) -> Result<Bytes, AllocError>
        requires { length answers.now ≡ length self.now.branches }
        ensures { IfOk result (λ body. body ≡ join_text self.now.branches answers.now) }
    {
        let mut joined = Bytes::new(alloc);
        joined.extend_from_slice(b"{")?;
        for (place, branch) in self.branches.iter().enumerate() {
            if place > 0 {
                joined.extend_from_slice(b",")?;
            }
            add_member(&mut joined, branch.name.as_str(), answers[place].as_slice())?;
        }
        joined.extend_from_slice(b"}")?;
        Ok(joined)
    }
}

fn add_member(joined: &mut Bytes, name: &str, answer: &[u8]) -> Result<(), AllocError>
    ensures { OnOk result (joined.new ≡ joined.old ++ member_text name.now answer.now) }
{
    joined.extend_from_slice(b"\"")?;
    joined.extend_from_slice(name.as_bytes())?;
    joined.extend_from_slice(b"\":")?;
    joined.extend_from_slice(answer)
}

// The first rule that a plan breaks, where it breaks one.
#[tactic(auto, unfolding(crate::specs::Plan::plan_fault))]
fn check_rules(
    path: &str,
    limit: u32,
    timeout_ms: Option<u64>,
    branches: &[Branch],
) -> Result<(), PlanError>
    ensures { result_err result ≡ plan_fault
        (record { path = path.now; limit = limit; timeout = timeout_ms; branches = branches.now }) }
{
    if !is_well_formed(path, timeout_ms, branches) {
        return Err(PlanError::NotAPlan);
    }
    if !have_names(branches) {
        return Err(PlanError::BadName);
    }
    if branches.is_empty() {
        return Err(PlanError::NoBranch);
    }
    if branches.len() > MAX_BRANCHES {
        return Err(PlanError::TooManyBranches);
    }
    if limit == 0 {
        return Err(PlanError::ZeroLimit);
    }
    if repeats_name(branches) {
        return Err(PlanError::RepeatedName);
    }
    Ok(())
}

fn is_well_formed(path: &str, timeout_ms: Option<u64>, branches: &[Branch]) -> bool
    ensures { result ≡ is_well_formed path.now timeout_ms branches.now }
{
    rules::is_path(path)
        && timeout_ms.is_none_or(|ms| ms <= MAX_DECIMAL)
        && have_targets(branches)
        && have_times(branches)
        && have_pass(branches)
}

fn have_times(branches: &[Branch]) -> bool
    ensures { result ≡ list_all has_time branches.now }
{
    branches.iter().all(has_time)
}

fn has_time(branch: &Branch) -> bool
    ensures { result ≡ has_time branch.now }
{
    branch
        .timeout_ms
        .is_none_or(|ms| 1 <= ms && ms <= MAX_DECIMAL)
}

fn have_pass(branches: &[Branch]) -> bool
    ensures { result ≡ list_all has_pass branches.now }
{
    branches
        .iter()
        .all(|branch| may_pass(branch.pass.as_slice()))
}

fn have_targets(branches: &[Branch]) -> bool
    ensures { result ≡ list_all has_target branches.now }
{
    branches.iter().all(has_target)
}

fn has_target(branch: &Branch) -> bool
    ensures { result ≡ has_target branch.now }
{
    rules::is_address(branch.address.as_str()) && rules::is_path(branch.path.as_str())
}

fn have_names(branches: &[Branch]) -> bool
    ensures { result ≡ list_all has_name branches.now }
{
    branches
        .iter()
        .all(|branch| rules::is_name(branch.name.as_str()))
}

// Whether two branches have one name.
fn repeats_name(branches: &[Branch]) -> bool
    ensures { result ≡ has_repeat (names branches.now) }
{
    for (place, branch) in branches.iter().enumerate() {
        if holds_name(&branches[place + 1..], &branch.name) {
            return true;
        }
    }
    false
}

fn holds_name(branches: &[Branch], name: &Text) -> bool
    ensures { result ≡ list_any (λ b. bytes_eq name.now b.name) branches.now }
{
    branches.iter().any(|branch| *name == branch.name)
}
