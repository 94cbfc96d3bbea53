ghost use Rattle.std.specs.Prelude.{◌≡◌, ◌<◌, Err, IfErr, IfOk, IfSome, None, OnErr, length, take};
ghost use Rattle.std.specs.Io.{ReadsAtMost};
ghost use Rattle.std.specs.Io.KnownBytes.{Consumes, IsAtEnd, Keeps};
ghost use Rattle.script_replay.specs.Fault.{IsOfInput, IsOfPlanInput, IsOfReading};
ghost use Rattle.script_replay.specs.Input.{ReadsNoPlans, ReadsNoScript, ReadsPlans, ReadsScript, ReadsTooMuch, ReadsWhole};

use crate::fault::Fault;
use call_plan::{PlanError, Plans, read_plans};
use gateway_run::{Event, ScriptError, read_script};
use std::alloc::Global;
use std::io::{self, ErrorKind, Read};

/// A script and a plan file have at most so many bytes.
const MAX_INPUT: usize = 16_777_216;

/// Reads a script to the end of the input, at most one byte more than a script may have. `Io` at a read
/// that failed, `Script` for a text that is longer or is no script, `Memory` for want of memory.
pub fn read_input<R: Read>(alloc: Global, reader: &mut R) -> Result<(Plans, Vec<Event>), Fault>
    ensures faults { IfErr result IsOfInput }
    ensures read { IfOk result (λ script. ReadsScript (R.remaining reader.old) (R.remaining reader.new) script.0 script.1.items) }
    ensures script { result ≡ Err Fault.Script → ReadsNoScript (R.remaining reader.old) (R.remaining reader.new) }
{
    let Some(text) = read_text(alloc, reader)? else {
        return Err(Fault::Script);
    };
    match read_script(alloc, text.as_slice()) {
        Ok(script) => Ok(script),
        Err(ScriptError::Memory) => Err(Fault::Memory),
        Err(_) => Err(Fault::Script),
    }
}

/// Reads a plan file to its end, at most one byte more than it may have. `Io` at a read that failed, `Plans` for a text
/// that is longer or is refused, `Memory` for want of memory.
pub fn read_plan_input<R: Read>(alloc: Global, reader: &mut R) -> Result<Plans, Fault>
    ensures faults { IfErr result IsOfPlanInput }
    ensures read { IfOk result (λ plans. ReadsPlans (R.remaining reader.old) (R.remaining reader.new) plans) }
    ensures plans { result ≡ Err Fault.Plans → ReadsNoPlans (R.remaining reader.old) (R.remaining reader.new) }
{
    let Some(text) = read_text(alloc, reader)? else {
        return Err(Fault::Plans);
    };
    match read_plans(alloc, text.as_slice()) {
        Ok(plans) => Ok(plans),
        Err(PlanError::Memory) => Err(Fault::Memory),
        Err(_) => Err(Fault::Plans),
    }
}

/// Reads a text to its end, at most one byte more than it may have. None where it is too long.
pub fn read_text<R: Read>(alloc: Global, reader: &mut R) -> Result<Option<Vec<u8>>, Fault>
    ensures faults { IfErr result IsOfReading }
    ensures whole { IfOk result (λ text. IfSome text (λ bytes. ReadsWhole (R.remaining reader.old) (R.remaining reader.new) bytes.items)) }
    ensures too_long { IfOk result (λ text. text ≡ None → ReadsTooMuch (R.remaining reader.old) (R.remaining reader.new)) }
{
    let mut text = Vec::new(alloc);
    let mut buffer = [0u8; 8192];
    while text.len() <= MAX_INPUT {
        let room = buffer.len().min(MAX_INPUT + 1 - text.len());
        match read_once(reader, &mut buffer[..room]) {
            Ok(0) => return Ok(Some(text)),
            Ok(count) => text.extend_from_slice(&buffer[..count])?,
            Err(_) => return Err(Fault::Io),
        }
    }
    Ok(None)
}

/// A read that a signal interrupts is made so often at most.
const MOST_TRIES: u32 = 1_000;

/// Reads once. A read that a signal interrupts is made again.
fn read_once<R: Read>(reader: &mut R, buffer: &mut [u8]) -> io::Result<usize>
    ensures bound { ReadsAtMost result buffer.new }
    ensures ok { IfOk result (λ n. Consumes (R.remaining reader.old) (R.remaining reader.new) (take n buffer.new)) }
    ensures end { IfOk result (λ n. n ≡ 0 → 0 < length buffer.old → IsAtEnd (R.remaining reader.new)) }
    ensures err { OnErr result (Keeps (R.remaining reader.old) (R.remaining reader.new)) }
{
    for _try in 0..MOST_TRIES {
        match reader.read(buffer) {
            Err(error) if error.kind() == ErrorKind::Interrupted => {}
            done => return done,
        }
    }
    Err(io::Error::from(ErrorKind::Interrupted))
}
