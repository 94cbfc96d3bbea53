ghost use Rattle.std.specs.Prelude.{◌≡◌, Err, IfErr, IfOk, ℕ, List, Ok, string_bytes};
ghost use Rattle.std.specs.Result.{result_err};
ghost use Rattle.call_plan.specs.Plan.{PlanRecord};
ghost use Rattle.call_plan.specs.PlanFile.{plans_in};
ghost use Rattle.input_check.specs.Report.{Says};
ghost use Rattle.script_replay.specs.Fault.{IsOfPlanInput};
ghost use Rattle.script_replay.specs.Input.{ReadsTooMuch, ReadsWhole};

use call_plan::{PlanError, Plans, read_plans};
use http_pieces::Text;
use input_check::plan_report;
use json_values::{json_value, text_at};
use script_replay::{Fault, read_text};
use serde_json::Value;
use std::alloc::{AllocError, Global};
use std::io::Read;
use std::marker::Model;
use std::net::SocketAddr;

/// The text of a plan file, from which each loop has plans of its own.
#[derive(Drop)]
pub struct PlanFile {
    text: Vec<u8>,
}

impl Model for PlanFile {
    ghost Value = { List ℕ };

    ghost view = { λ f. f.text.items };
}

impl PlanFile {
    /// Reads a text to its end. `Plans` where it is too long, `Io` where a read failed, `Memory` for want of memory.
    pub fn read<R: Read>(alloc: Global, reader: &mut R) -> Result<PlanFile, Fault>
        ensures faults { IfErr result IsOfPlanInput }
        ensures read { IfOk result (λ file. ReadsWhole (R.remaining reader.old) (R.remaining reader.new) file) }
        ensures plans { result ≡ Err Fault.Plans → ReadsTooMuch (R.remaining reader.old) (R.remaining reader.new) }
    {
        match read_text(alloc, reader)? {
            Some(text) => Ok(PlanFile { text }),
            None => Err(Fault::Plans),
        }
    }

    /// Its plans. `Plans` where it is refused, `Memory` for want of memory.
    pub fn plans(&self, alloc: Global) -> Result<Plans, Fault>
        ensures faults { IfErr result IsOfPlanInput }
        ensures taken { IfOk result (λ plans. plans_in self.now ≡ Ok plans) }
        ensures refused { result ≡ Err Fault.Plans → (plans : List PlanRecord) → plans_in self.now ≡ Ok plans → ⊥ }
    {
        match read_plans(alloc, self.text.as_slice()) {
            Ok(plans) => Ok(plans),
            Err(PlanError::Memory) => Err(Fault::Memory),
            Err(_) => Err(Fault::Plans),
        }
    }

    /// What `connect_gateway check` says of it under that name, for a gateway that listens at these addresses.
    pub fn report(&self, alloc: Global, name: &str, own: &[&str]) -> Result<String, AllocError>
        ensures says { IfOk result (λ text. Says (result_err (plans_in self.now)) (string_bytes text)) }
    {
        Ok(plan_report(alloc, name, self.text.as_slice(), own)?.text)
    }

    /// The paths of its plans, in their order.
    pub fn paths(&self, alloc: Global) -> Result<Vec<Text>, AllocError> {
        let mut paths = Vec::new(alloc);
        if let Some(plans) = json_value(alloc, self.text.as_slice())? {
            for plan in elements_of(&plans) {
                if let Some(path) = text_at(plan, "path") {
                    paths.push(Text::from_str(alloc, path)?)?;
                }
            }
        }
        Ok(paths)
    }

    /// How many branches have a name for an address, which must be looked up.
    pub fn names(&self, alloc: Global) -> Result<usize, AllocError> {
        match json_value(alloc, self.text.as_slice())? {
            Some(plans) => Ok(names_of(&plans)),
            None => Ok(0),
        }
    }
}

/// How many branches of the plans have a name for an address.
fn names_of(plans: &Value) -> usize {
    let mut count = 0usize;
    for plan in elements_of(plans) {
        if let Some(branches) = plan.get("branches") {
            let named = elements_of(branches)
                .iter()
                .filter(|branch| is_named(branch))
                .count();
            count = count.saturating_add(named);
        }
    }
    count
}

/// Whether the address of a branch is a name, and no number.
fn is_named(branch: &Value) -> bool {
    match text_at(branch, "address") {
        Some(address) => address.parse::<SocketAddr>().is_err(),
        None => false,
    }
}

fn elements_of(value: &Value) -> &[Value] {
    match value.as_array() {
        Some(elements) => elements.as_slice(),
        None => &[],
    }
}
