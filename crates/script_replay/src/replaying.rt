ghost use Rattle.std.specs.Prelude.{◌≡◌, Err, IfErr, IfOk, length};
ghost use Rattle.std.specs.Io.KnownBytes.{Appends};
ghost use Rattle.gateway_run.specs.RunText.{run_text};
ghost use Rattle.script_replay.specs.Fault.{IsOfInput, IsOfReading};
ghost use Rattle.script_replay.specs.Input.{ReadsNoScript, Replays};

use crate::fault::Fault;
use crate::input::read_input;
use crate::patient::Patient;
use crate::plain_hook::{PlainHook, stock};
use gateway_core::Stock;
use gateway_run::{Run, RunError, openings, run, write_run};
use std::alloc::{AllocError, Global};
use std::io::{BufWriter, Read, Write};

/// Runs the script that the reader gives, writes the run's text, and gives the writer back. `Script` for a script that
/// is refused, `Io` where a read or a write failed, `Memory` for want of memory.
pub fn replay<R: Read, W: Write + Drop>(
    alloc: Global,
    reader: &mut R,
    writer: W,
) -> Result<W, Fault>
    ensures faults { IfErr result IsOfInput }
    ensures script { result ≡ Err Fault.Script → ReadsNoScript (R.remaining reader.old) (R.remaining reader.new) }
    ensures done { IfOk result (λ now. Replays (R.remaining reader.old) (R.remaining reader.new) (W.contents writer) (W.contents now)) }
{
    let (plans, events) = read_input(alloc, reader)?;
    let stocks = stocks(alloc, openings(&events))?;
    let run = match run(alloc, plans, events, stocks) {
        Ok(run) => run,
        Err(RunError::Memory) => return Err(Fault::Memory),
        Err(RunError::Stocks) => unreachable!(),
    };
    let writer = write_text(alloc, &run, writer)?;
    Ok(writer)
}

/// A stock of hooks for each opening.
fn stocks(alloc: Global, count: usize) -> Result<Vec<Stock<PlainHook>>, AllocError>
    ensures { IfOk result (λ stocks. length stocks.items ≡ count) }
{
    let mut stocks = Vec::new(alloc);
    for _opening in 0..count {
        stocks.push(stock(alloc)?)?;
    }
    Ok(stocks)
}

/// Writes the text of a run, and gives the writer back.
fn write_text<W: Write + Drop>(alloc: Global, run: &Run, writer: W) -> Result<W, Fault>
    ensures faults { IfErr result IsOfReading }
    ensures written { IfOk result (λ now. Appends (W.contents writer) (W.contents now) (run_text run.now)) }
{
    let mut buffered = BufWriter::new(alloc, Patient { inner: writer })?;
    if write_run(run, &mut buffered).is_err() {
        return Err(Fault::Io);
    }
    match buffered.into_inner() {
        Ok(patient) => Ok(patient.inner),
        Err(_) => Err(Fault::Io),
    }
}
