ghost use Rattle.std.specs.Prelude.{◌≡◌, ◌≢◌, [], true, IfOk, string_bytes};
ghost use Rattle.call_plan.specs.PlanFile.{plans_in};
ghost use Rattle.gateway_run.specs.Script.{script_in};
ghost use Rattle.input_check.specs.Report.{IsApproval, IsRefusal, IsVerdict, Says, Warns};

use crate::complaint::Complaint;
use crate::event_fault::elements_of;
use crate::finding::{Finding, Place};
use crate::json_fault::json_fault;
use crate::lines::{Lines, push_finding};
use crate::plan_fault::plans_fault;
use crate::plan_warnings::{push_plan_warnings, push_repeated_key};
use crate::script_fault::{plans_of, script_fault};
use crate::script_warnings::push_script_warnings;
use crate::served::{push_number, push_served};
use crate::warnings::Warnings;
use call_plan::{PlanError, Plans, read_plans};
use gateway_run::{ScriptError, read_script};
use serde_json::{Error, Value};
use std::alloc::{AllocError, Global};

/// What is to be said of a plan file.
#[derive(Drop)]
pub struct PlanReport {
    /// Why `read_plans` refuses it, if it does; never want of memory.
    pub fault: Option<PlanError>,
    /// Whether the text has a warning.
    pub warned: bool,
    /// Lines, each ended by LF. The first begins with `fine: ` where there is no fault, else with `refused: `.
    pub text: String,
}

/// What is to be said of a script.
#[derive(Drop)]
pub struct ScriptReport {
    /// Why `read_script` refuses it, if it does; never want of memory.
    pub fault: Option<ScriptError>,
    /// Whether the text has a warning.
    pub warned: bool,
    /// Lines, as those of a `PlanReport`.
    pub text: String,
}

/// The report on the text of the plan file of that name, which stands in each of its findings; it may be empty. A
/// branch that leads to one of these addresses of the gateway itself is warned of.
pub fn plan_report(
    alloc: Global,
    name: &str,
    text: &[u8],
    own: &[&str],
) -> Result<PlanReport, AllocError>
    ensures fault { IfOk result (λ report. IsVerdict report.fault (plans_in text.now)) }
    ensures says { IfOk result (λ report. Says report.fault (string_bytes report.text)) }
    ensures warned { IfOk result (λ report. report.warned ≡ true → Warns (string_bytes report.text)) }
{
    match read_plans(alloc, text) {
        Ok(plans) => {
            let found = fine_plans(alloc, name, &plans, text, own)?;
            Ok(PlanReport {
                fault: None,
                warned: !found.warnings.is_empty(),
                text: fine(alloc, &found)?,
            })
        }
        Err(PlanError::Memory) => Err(AllocError),
        Err(fault) => {
            let found = refused_plans(alloc, name, text, own)?;
            Ok(PlanReport {
                fault: Some(fault),
                warned: !found.warnings.is_empty(),
                text: refused(alloc, &found)?,
            })
        }
    }
}

/// The report on the text of the script of that name.
pub fn script_report(alloc: Global, name: &str, text: &[u8]) -> Result<ScriptReport, AllocError>
    ensures fault { IfOk result (λ report. IsVerdict report.fault (script_in text.now)) }
    ensures says { IfOk result (λ report. Says report.fault (string_bytes report.text)) }
    ensures warned { IfOk result (λ report. report.warned ≡ true → Warns (string_bytes report.text)) }
{
    match read_script(alloc, text) {
        Ok((plans, events)) => {
            let found = fine_script(alloc, name, &plans, events.len(), text)?;
            Ok(ScriptReport {
                fault: None,
                warned: !found.warnings.is_empty(),
                text: fine(alloc, &found)?,
            })
        }
        Err(ScriptError::Memory) => Err(AllocError),
        Err(fault) => {
            let found = refused_script(alloc, name, text)?;
            Ok(ScriptReport {
                fault: Some(fault),
                warned: !found.warnings.is_empty(),
                text: refused(alloc, &found)?,
            })
        }
    }
}

/// The text for a file of that name that is longer than one may be.
pub fn too_long(alloc: Global, name: &str) -> Result<String, AllocError>
    ensures { IfOk result (λ text. IsRefusal (string_bytes text)) }
{
    refused_whole(alloc, name, Complaint::TooLong)
}

/// The text for a file of that name that can't be opened: whether there is one is known.
pub fn not_opened(alloc: Global, name: &str, is_there: bool) -> Result<String, AllocError>
    ensures { IfOk result (λ text. IsRefusal (string_bytes text)) }
{
    let complaint = if is_there {
        Complaint::NotOpened
    } else {
        Complaint::NotThere
    };
    refused_whole(alloc, name, complaint)
}

/// The text of a file that is refused before it is read.
fn refused_whole(alloc: Global, name: &str, complaint: Complaint) -> Result<String, AllocError>
    ensures { IfOk result (λ text. IsRefusal (string_bytes text)) }
{
    let mut found = Found::new(alloc, name);
    push_finding(&mut found.said, &Finding::at(Place::File, complaint));
    refused(alloc, &found)
}

/// What was found.
#[derive(Drop)]
struct Found<'n> {
    // what is taken of the file, or why it is refused
    said: Lines<'n>,
    warnings: Warnings<'n>,
}

impl<'n> Found<'n> {
    /// Nothing yet.
    fn new(alloc: Global, name: &'n str) -> Found<'n> {
        Found {
            said: Lines::new(alloc, name),
            warnings: Warnings::new(alloc, name),
        }
    }
}

/// The text of a file that is fine.
fn fine(alloc: Global, found: &Found<'_>) -> Result<String, AllocError>
    ensures approval { IfOk result (λ text. IsApproval (string_bytes text)) }
    ensures warned { IfOk result (λ text. found.now.warnings ≢ [] → Warns (string_bytes text)) }
{
    let mut text = String::from_str(alloc, "fine: ")?;
    text.push_str(found.said.text()?)?;
    text.push_str(found.warnings.text()?)?;
    Ok(text)
}

/// The text of a file that is refused.
fn refused(alloc: Global, found: &Found<'_>) -> Result<String, AllocError>
    ensures refusal { IfOk result (λ text. IsRefusal (string_bytes text)) }
    ensures warned { IfOk result (λ text. found.now.warnings ≢ [] → Warns (string_bytes text)) }
{
    let mut text = String::from_str(alloc, "refused: ")?;
    text.push_str(found.said.text()?)?;
    text.push_str(found.warnings.text()?)?;
    Ok(text)
}

fn fine_plans<'n>(
    alloc: Global,
    name: &'n str,
    plans: &Plans,
    text: &[u8],
    own: &[&str],
) -> Result<Found<'n>, AllocError> {
    let read = read_value(alloc, text)?;
    let mut found = Found::new(alloc, name);
    push_number(&mut found.said, plans.len(), " plan\n", " plans\n");
    if let Ok(value) = read {
        push_served(&mut found.said, plans, elements_of(&value));
        push_repeated_key(alloc, &mut found.warnings, text);
        push_plan_warnings(alloc, &mut found.warnings, elements_of(&value), own);
    }
    Ok(found)
}

fn refused_plans<'n>(
    alloc: Global,
    name: &'n str,
    text: &[u8],
    own: &[&str],
) -> Result<Found<'n>, AllocError> {
    let read = read_value(alloc, text)?;
    let mut found = Found::new(alloc, name);
    match read {
        Ok(value) => {
            push_fault(&mut found.said, plans_fault(&value));
            push_repeated_key(alloc, &mut found.warnings, text);
            push_plan_warnings(alloc, &mut found.warnings, elements_of(&value), own);
        }
        // the line of a text that is no JSON
        Err(error) => push_finding(&mut found.said, &json_fault(alloc, text, &error)?),
    }
    Ok(found)
}

fn fine_script<'n>(
    alloc: Global,
    name: &'n str,
    plans: &Plans,
    events: usize,
    text: &[u8],
) -> Result<Found<'n>, AllocError> {
    let read = read_value(alloc, text)?;
    let mut found = Found::new(alloc, name);
    push_number(&mut found.said, plans.len(), " plan, ", " plans, ");
    push_number(&mut found.said, events, " event\n", " events\n");
    if let Ok(script) = read {
        push_served(&mut found.said, plans, plans_of(&script));
        push_repeated_key(alloc, &mut found.warnings, text);
        push_script_warnings(alloc, &mut found.warnings, &script);
    }
    Ok(found)
}

fn refused_script<'n>(alloc: Global, name: &'n str, text: &[u8]) -> Result<Found<'n>, AllocError> {
    let read = read_value(alloc, text)?;
    let mut found = Found::new(alloc, name);
    match read {
        Ok(script) => {
            push_fault(&mut found.said, script_fault(&script));
            push_repeated_key(alloc, &mut found.warnings, text);
            push_script_warnings(alloc, &mut found.warnings, &script);
        }
        Err(error) => push_finding(&mut found.said, &json_fault(alloc, text, &error)?),
    }
    Ok(found)
}

/// The value of a text, or what the reader of JSON says of it.
fn read_value(alloc: Global, text: &[u8]) -> Result<Result<Value, Error>, AllocError> {
    match Value::from_slice(alloc, text) {
        Err(error) if error.is_memory() => Err(AllocError),
        read => Ok(read),
    }
}

fn push_fault(lines: &mut Lines<'_>, found: Option<Finding<'_>>) {
    match found {
        Some(found) => push_finding(lines, &found),
        None => push_finding(lines, &Finding::at(Place::File, Complaint::Refused)),
    }
}
