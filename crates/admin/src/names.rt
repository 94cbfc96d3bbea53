ghost use Rattle.std.specs.Prelude.{◌≡◌, ◌++◌, IfOk, OnOk};
ghost use Rattle.admin.specs.Names.{branches_at, branches_named, place_of_branch, place_of_plan, place_of_reply};

use access_log::path;
use call_plan::{Plan, Plans};
use gateway_model::ReplyEntry;
use http_pieces::Text;
use std::alloc::{AllocError, Global};

/// What is served: what is counted is told by these names.
#[derive(Drop)]
pub struct ServedNames {
    /// The paths of the plans, in their order.
    pub paths: Vec<Text>,
    /// The branches of the plans, in their order.
    pub branches: Vec<BranchName>,
}

/// A branch of a plan.
#[derive(Drop)]
pub struct BranchName {
    /// The path of its plan.
    pub plan: Text,
    /// Its number in its plan, from 0.
    pub number: u32,
    pub name: Text,
}

impl ServedNames {
    /// The names of the plans with these paths, and of their branches.
    pub fn of(alloc: Global, paths: Vec<Text>, plans: &Plans) -> Result<ServedNames, AllocError>
        ensures paths { IfOk result (λ names. names.paths.items ≡ paths.items) }
        ensures branches { IfOk result (λ names. names.branches.items ≡ branches_at plans.now paths.items) }
    {
        let mut branches = Vec::new(alloc);
        for path in paths.iter() {
            if let Some(plan) = plans.find(path.as_str().as_bytes()) {
                add_branches(alloc, plan, &mut branches)?;
            }
        }
        Ok(ServedNames { paths, branches })
    }

    /// The place of the plan with that path.
    pub(crate) fn place_of_plan(&self, path: &str) -> Option<usize>
        ensures { result ≡ place_of_plan path.now self.now.paths.items }
    {
        self.paths.iter().position(|other| other.as_str() == path)
    }

    /// The place of the plan of the reply's call; the one behind all plans where it answers no call.
    pub(crate) fn place_of_reply(&self, entry: &ReplyEntry) -> usize
        ensures { result ≡ place_of_reply entry.now self.now.paths.items }
    {
        let Some(path) = path(entry) else {
            return self.paths.len();
        };
        match self.place_of_plan(path) {
            Some(place) => place,
            None => self.paths.len(),
        }
    }

    /// The place of the branch with that number of the plan with that path.
    pub(crate) fn place_of_branch(&self, path: &str, number: u32) -> Option<usize>
        ensures { result ≡ place_of_branch path.now number self.now.branches.items }
    {
        self.branches.iter().position(|branch| branch.number == number
            && branch.plan.as_str() == path)
    }
}

/// Adds the branches of a plan.
fn add_branches(
    alloc: Global,
    plan: &Plan,
    branches: &mut Vec<BranchName>,
) -> Result<(), AllocError>
    ensures { OnOk result (branches.new.items ≡ branches.old.items ++ branches_named plan.now) }
{
    for (place, branch) in plan.branches().iter().enumerate() {
        branches.push(BranchName {
            plan: Text::from_str(alloc, plan.path())?,
            number: place as u32,
            name: Text::from_str(alloc, branch.name.as_str())?,
        })?;
    }
    Ok(())
}
