ghost use Rattle.std.specs.Prelude.{◌≡◌, Err, IfErr, Ok, OnOk, string_bytes, true};
ghost use Rattle.std.specs.Io.KnownBytes.{Appends};
ghost use Rattle.script_replay.specs.Fault.{IsOfInput, IsOfPlanInput, IsOfReading};
ghost use Rattle.script_replay.specs.Input.{ReadsNoPlans, ReadsNoScript};
ghost use Rattle.input_files.specs.Check.{FindsPlans, FindsScript, IsOfChecked};
ghost use Rattle.input_files.specs.Check.{WritesApproval, WritesRefusal, WritesWarning};

use command_line::{Checked, CheckedFile, OwnAddresses};
use input_check::{not_opened, plan_report, script_report, too_long};
use script_replay::{Fault, read_text};
use std::alloc::{AllocError, Global};
use std::fs::{File, Files};
use std::io::{self, ErrorKind, Read, Write};

/// Checks the file that is named, and prints what is to be said of it, also that it can't be opened. With `--strict` a
/// file with warnings ends as a refused one does.
pub fn check<R: Print + AllocGlobal + Files>(rt: &R, checked: &Checked) -> Result<(), Fault>
    ensures { IfErr result (IsOfChecked checked.now.file) }
{
    let alloc = rt.alloc();
    let mut writer = io::writer(rt);
    let (warned, fault) = match &checked.file {
        CheckedFile::Plans(path) => {
            let mut file = open(rt, path.as_str(), &mut writer)?;
            let own = texts_of(alloc, &checked.own)?;
            (
                check_plans(alloc, path.as_str(), own.as_slice(), &mut file, &mut writer)?,
                Fault::Plans,
            )
        }
        CheckedFile::Script(path) => {
            let mut file = open(rt, path.as_str(), &mut writer)?;
            (
                check_script(alloc, path.as_str(), &mut file, &mut writer)?,
                Fault::Script,
            )
        }
    };
    if warned && checked.strict {
        return Err(fault);
    }
    Ok(())
}

/// The file of that name. Where it can't be opened, that is written, with its name.
fn open<R: AllocGlobal + Files, W: Write>(
    rt: &R,
    name: &str,
    writer: &mut W,
) -> Result<R::File, Fault>
    ensures { IfErr result IsOfReading }
{
    let error = match File::open(rt, name) {
        Ok(file) => return Ok(file),
        Err(error) => error,
    };
    let kind = error.kind();
    if kind == ErrorKind::OutOfMemory {
        return Err(Fault::Memory);
    }
    let is_there = kind != ErrorKind::NotFound;
    write_text(&not_opened(rt.alloc(), name, is_there)?, writer)?;
    Err(Fault::Io)
}

/// The addresses that are said.
fn texts_of(alloc: Global, own: &OwnAddresses) -> Result<Vec<&str>, AllocError> {
    let mut texts = Vec::new(alloc);
    for text in [&own.listen, &own.admin, &own.ready] {
        if let Some(text) = text {
            texts.push(text.as_str())?;
        }
    }
    Ok(texts)
}

/// Reads the plan file of that name and writes what is to be said of it, for a gateway that listens at these addresses:
/// that it is fine and what it serves, or why it is refused. `Plans` where it is refused, `Io` where a read or a write failed, `Memory` for want of memory. Answers
/// whether it warned.
pub fn check_plans<R: Read, W: Write>(
    alloc: Global,
    name: &str,
    own: &[&str],
    reader: &mut R,
    writer: &mut W,
) -> Result<bool, Fault>
    ensures faults { IfErr result IsOfPlanInput }
    ensures fine { OnOk result (FindsPlans (R.remaining reader.old) (R.remaining reader.new)
        × WritesApproval (W.contents writer.old) (W.contents writer.new)) }
    ensures warned { result ≡ Ok true → WritesWarning (W.contents writer.old) (W.contents writer.new) }
    ensures plans { result ≡ Err Fault.Plans → ReadsNoPlans (R.remaining reader.old) (R.remaining reader.new)
        × WritesRefusal (W.contents writer.old) (W.contents writer.new) }
{
    let Some(text) = read_text(alloc, reader)? else {
        write_text(&too_long(alloc, name)?, writer)?;
        return Err(Fault::Plans);
    };
    let report = plan_report(alloc, name, text.as_slice(), own)?;
    write_text(&report.text, writer)?;
    match report.fault {
        None => Ok(report.warned),
        Some(_) => Err(Fault::Plans),
    }
}

/// Reads the script of that name and writes what is to be said of it, as `check_plans` does. `Script` where it is
/// refused. Answers whether it warned.
pub fn check_script<R: Read, W: Write>(
    alloc: Global,
    name: &str,
    reader: &mut R,
    writer: &mut W,
) -> Result<bool, Fault>
    ensures faults { IfErr result IsOfInput }
    ensures fine { OnOk result (FindsScript (R.remaining reader.old) (R.remaining reader.new)
        × WritesApproval (W.contents writer.old) (W.contents writer.new)) }
    ensures warned { result ≡ Ok true → WritesWarning (W.contents writer.old) (W.contents writer.new) }
    ensures script { result ≡ Err Fault.Script → ReadsNoScript (R.remaining reader.old) (R.remaining reader.new)
        × WritesRefusal (W.contents writer.old) (W.contents writer.new) }
{
    let Some(text) = read_text(alloc, reader)? else {
        write_text(&too_long(alloc, name)?, writer)?;
        return Err(Fault::Script);
    };
    let report = script_report(alloc, name, text.as_slice())?;
    write_text(&report.text, writer)?;
    match report.fault {
        None => Ok(report.warned),
        Some(_) => Err(Fault::Script),
    }
}

fn write_text<W: Write>(text: &String, writer: &mut W) -> Result<(), Fault>
    ensures faults { IfErr result IsOfReading }
    ensures written { OnOk result (Appends (W.contents writer.old) (W.contents writer.new) (string_bytes text.now)) }
{
    match writer.write_all(text.as_bytes()) {
        Ok(()) => Ok(()),
        Err(_) => Err(Fault::Io),
    }
}
