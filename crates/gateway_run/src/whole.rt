ghost use Rattle.std.specs.Prelude.{◌≡◌, ◌∷◌, ◌<◌, ◌≤◌, ◌+◌, ◌==◌, ◌↔◌, [], Err, false, nat_lt, true, ℕ, IfOk, List, OnOk, filter, is_some, length, map, not, slice_index_or};
ghost use Rattle.std.specs.List.{count_by, range_with_len};
ghost use Rattle.std.specs.Vec.Iter.{into_iter_items};
ghost use Rattle.gateway_model.specs.Events.{Before, IsOpened, IsRising, Occurs};
ghost use Rattle.gateway_theory.specs.Served.{Served};
ghost use Rattle.gateway_model.specs.Past.{marked};
ghost use Rattle.gateway_model.specs.Queue.{queued};
ghost use Rattle.gateway_model.specs.Starts.{Placed, occurrences};
ghost use Rattle.gateway_run.specs.Log.{HasRun, log_value};
ghost use Rattle.gateway_model.specs.Run.{IsLived, is_listed, is_start_of};
ghost use Rattle.gateway_model.specs.Events.{is_opening};
ghost use Rattle.gateway_run.specs.Running.{IsRun};
ghost use Rattle.gateway_model.specs.Run.{newest_first, starts_of};
ghost use Rattle.gateway_run.specs.Running.{openings_at};
ghost use Rattle.gateway_run.specs.Stepping.{CollectsFor, log_after};

use crate::log::Log;
use crate::outcome::Run;
use crate::stepping::{Stepped, step};
use call_plan::Plans;
use gateway_core::{Core, ReplyHook, Stock};
use gateway_model::{Event, RunError};
use gateway_theory::event_laws::openings_law;
use std::alloc::{AllocError, Global};
use std::vec::IntoIter;

/// How many of the events are openings: so many stocks of hooks a run of them takes.
pub fn openings(events: &[Event]) -> usize
    ensures { result ≡ count_by is_opening events.now }
{
    events.iter().filter(|event| event.is_opening()).count()
}

/// Runs a whole list of events on a new gateway that serves these plans, with a stock of hooks for each opening.
///
/// `Stocks` exactly where there is not one stock for each opening; `Memory` where the core or the run's lists found none.
pub fn run<H: ReplyHook + Drop>(
    alloc: Global,
    plans: Plans,
    events: Vec<Event>,
    stocks: Vec<Stock<H>>,
) -> Result<Run, RunError>
    ensures stocks { (result ≡ Err RunError.Stocks) ↔ ((length stocks.items == count_by is_opening events.items) ≡ false) }

    // The openings that succeeded, each where fewer connections were open than may be.
    ensures opened { IfOk result (λ run. IsOpened run.opened.items (newest_first events.items)) }

    // What is queued for every connection, and what starts, in order and with what each backend is asked, is by what
    // occurred and by where connections broke.
    ensures lived { IfOk result (λ run. (occurred : List Placed)
        → Occurs plans run.opened.items (newest_first events.items) occurred
        → (lived : List Placed) × IsLived run.opened.items run.queued.items run.starts.items (map (λ j. j.job) run.jobs.items)
        run.broken.items (newest_first events.items) occurred lived) }
    // For a connection that did not break the second does not matter.
    ensures queued { IfOk result (λ run. (occurred : List Placed)
        → Occurs plans run.opened.items (newest_first events.items) occurred → (c : ℕ) → c < length run.opened.items
        → is_listed c run.broken.items ≡ false
        → slice_index_or run.queued.items c [] ≡ queued c (marked (occurrences occurred))) }
    ensures starts { IfOk result (λ run. (occurred : List Placed)
        → Occurs plans run.opened.items (newest_first events.items) occurred → (c : ℕ)
        → is_listed c run.broken.items ≡ false
        → filter (is_start_of c) run.starts.items ≡ filter (is_start_of c) (starts_of occurred)) }

    ensures one_each { IfOk result (λ run. length run.queued.items ≡ length run.opened.items) }
    ensures broken { IfOk result (λ run. (c : ℕ) → is_listed c run.broken.items ≡ true → c < length run.opened.items) }
    ensures rising { IfOk result (λ run. IsRising run.broken.items) }
{
    if stocks.len() != openings(&events) {
        return Err(RunError::Stocks);
    }
    let run = whole_run(alloc, plans, events, stocks)?;
    Ok(run)
}

/// The same, with one stock for each opening and in one clause.
fn whole_run<H: ReplyHook + Drop>(
    alloc: Global,
    plans: Plans,
    events: Vec<Event>,
    stocks: Vec<Stock<H>>,
) -> Result<Run, AllocError>
    requires { length stocks.items ≡ count_by is_opening events.items }
    ensures { IfOk result (λ run. IsRun plans (newest_first events.items)
        run.opened.items run.queued.items run.starts.items (map (λ j. j.job) run.jobs.items) run.broken.items) }
{
    let mut core = Core::new(alloc, plans)?;
    run_of(alloc, &mut core, events, stocks)
}

/// What is taken down of a core that begins.
fn run_of<H: ReplyHook + Drop>(
    alloc: Global,
    core: &mut Core<H>,
    events: Vec<Event>,
    stocks: Vec<Stock<H>>,
) -> Result<Run, AllocError>
    requires { length stocks.items ≡ count_by is_opening events.items }
    ensures { HasRun (λ c. false) core.old (log_value [] [] [] [] []) []
        → IfOk result (λ run. IsRun core.old.plans (newest_first events.items)
        run.opened.items run.queued.items run.starts.items (map (λ j. j.job) run.jobs.items) run.broken.items) }
{
    let mut log = Log::new(alloc);
    take_events(core, &mut log, events, stocks)?;
    collect_all(core, &mut log)?;
    let broken = listed(alloc, &log.broke)?;
    Ok(Run {
        opened: log.opened,
        queued: log.queued,
        starts: log.starts,
        jobs: log.jobs,
        broken,
    })
}

/// Makes the steps of these events, of which each opening takes the next stock.
fn take_events<H: ReplyHook + Drop>(
    core: &mut Core<H>,
    log: &mut Log,
    events: Vec<Event>,
    stocks: Vec<Stock<H>>,
) -> Result<(), AllocError>
    requires { length stocks.items ≡ count_by is_opening events.items }
    ensures ran { HasRun (λ c. false) core.old log.old []
        → OnOk result (HasRun (λ c. false) core.new log.new (newest_first events.items)) }
    ensures plans { OnOk result (core.new.plans ≡ core.old.plans) }
{
    let mut place = 0u64;
    let mut stocks = stocks.into_iter();
    for event in events {
        let stock = stock_for(&event, &mut stocks);
        take_event(core, log, place, event, stock)?;
        place = place.saturating_add(1);
    }
    Ok(())
}

/// The stock for the event: the next one for an opening, and none for any other.
fn stock_for<H: Drop>(event: &Event, stocks: &mut IntoIter<Stock<H>>) -> Option<Stock<H>>
    requires { openings_at event.now ≤ length (into_iter_items stocks.old) }
    ensures given { is_some result ≡ is_opening event.now }
    ensures left { length (into_iter_items stocks.old) ≡ openings_at event.now + length (into_iter_items stocks.new) }
{
    if event.is_opening() {
        stocks.next()
    } else {
        None
    }
}

/// Makes the step of the event of this place. What is queued for a connection that closes by it is taken before.
fn take_event<H: ReplyHook + Drop>(
    core: &mut Core<H>,
    log: &mut Log,
    place: u64,
    event: Event,
    stock: Option<Stock<H>>,
) -> Result<(), AllocError>
    requires { is_some stock ≡ is_opening event }
    ensures ran { (es : Before) → length es ≡ place → HasRun (λ c. false) core.old log.old es
        → OnOk result (HasRun (λ c. false) core.new log.new (event ∷ es)) }
    ensures plans { OnOk result (core.new.plans ≡ core.old.plans) }
{
    openings_law();
    collect_for(core, log, &event)?;
    let stepped = step(core, event, stock);
    note(log, place, &stepped)?;
    log.start(core, place)
}

/// Takes what is queued for the connection that the event closes, if it closes one.
fn collect_for<H: ReplyHook + Drop>(
    core: &mut Core<H>,
    log: &mut Log,
    event: &Event,
) -> Result<(), AllocError>
    ensures { OnOk result (CollectsFor event.now core.old core.new log.old log.new) }
{
    match event {
        Event::Closing(conn) => log.collect(core, *conn),
        _ => Ok(()),
    }
}

/// Takes down that a connection was opened at the event of this place, if one was.
fn note<H: Drop>(log: &mut Log, place: u64, stepped: &Stepped<H>) -> Result<(), AllocError>
    ensures { OnOk result (log.new ≡ log_after stepped.now place log.old) }
{
    match stepped {
        Stepped::Opened(_) => log.open(place),
        _ => Ok(()),
    }
}

/// Takes what is queued for each connection.
fn collect_all<H: ReplyHook + Drop>(core: &mut Core<H>, log: &mut Log) -> Result<(), AllocError>
    ensures ran { (es : Before) → HasRun (λ c. false) core.old log.old es
        → OnOk result (HasRun (λ c. nat_lt c (length log.old.opened)) core.new log.new es) }
    ensures opened { OnOk result (log.new.opened ≡ log.old.opened) }
    ensures plans { OnOk result (core.new.plans ≡ core.old.plans) }
{
    for number in 0..log.opened.len() {
        log.collect(core, number as u64)?;
    }
    Ok(())
}

/// The numbers of the connections that broke.
fn listed(alloc: Global, broke: &Vec<bool>) -> Result<Vec<u64>, AllocError>
    ensures { IfOk result (λ broken. broken.items
        ≡ filter (λ c. slice_index_or broke.now.items c false) (range_with_len 0 (length broke.now.items))) }
{
    let mut broken = Vec::new(alloc);
    for number in 0..broke.len() {
        if broke[number] {
            broken.push(number as u64)?;
        }
    }
    Ok(broken)
}
