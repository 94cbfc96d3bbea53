use crate::kept::KeptFigures;
use crate::labels::{add_first, add_label, add_number, add_seconds};
use crate::names::{BranchName, ServedNames};
use crate::rejections::{REJECTIONS, Rejections, STATUSES};
use crate::totals::{ALL_CAUSES, ALL_ENDINGS, BranchTotals, PlanTotals, place_of_ending};
use access_log::Ended;
use branch_causes::Cause;
use http_pieces::Bytes;
use std::alloc::{AllocError, Global};

/// So many of the endings are those of calls. The others say why there was no call.
const OF_CALLS: usize = 6;

/// The bounds of the histogram, in seconds, and the last, above all.
const BOUNDS: [&str; 14] = [
    "0.001", "0.002", "0.005", "0.01", "0.02", "0.05", "0.1", "0.2", "0.5", "1", "2", "5", "10",
    "+Inf",
];

/// How a loop stands.
#[derive(Clone, Copy, PartialEq, Eq, Debug)]
pub struct LoopFigures {
    /// Connections that are open.
    pub connections: u64,
    /// Exchanges with backends that are under way.
    pub exchanges: u64,
    /// Connections to backends that are kept and not used now.
    pub kept: u64,
}

/// All that is told.
#[derive(Drop)]
pub struct Figures<'a> {
    /// What is served.
    pub names: &'a ServedNames,
    /// The totals of each plan, and, behind them, of what is no call.
    pub totals: &'a [PlanTotals],
    /// The totals of each branch.
    pub asked: &'a [BranchTotals],
    /// Each loop, by its number.
    pub loops: &'a [LoopFigures],
    /// What became of connections to backends; None where none is kept.
    pub kept: Option<KeptFigures>,
    /// The replies to what is no call.
    pub rejections: &'a Rejections,
    /// How many streams were closed without a byte.
    pub streams_closed: u64,
    /// How many connections broke, for want of memory.
    pub connections_broken: u64,
    /// How many lines of the log were left out.
    pub lines_left_out: u64,
}

/// The figures in Prometheus' text format, version 0.0.4.
pub fn metrics_text(alloc: Global, figures: &Figures<'_>) -> Result<Bytes, AllocError> {
    let mut text = Vec::new(alloc);
    add_replies(&mut text, figures)?;
    add_rejections(&mut text, figures.rejections)?;
    add_times(&mut text, figures)?;
    add_asked(&mut text, figures)?;
    add_waits(&mut text, figures)?;
    add_loops(&mut text, figures.loops)?;
    if let Some(kept) = &figures.kept {
        add_kept(&mut text, kept)?;
        add_kept_now(&mut text, figures.loops)?;
    }
    add_closed(&mut text, figures.streams_closed)?;
    add_broken(&mut text, figures.connections_broken)?;
    add_left_out(&mut text, figures.lines_left_out)?;
    Ok(Bytes::from_vec(text))
}

fn add_replies(text: &mut Vec<u8>, figures: &Figures<'_>) -> Result<(), AllocError> {
    text.extend_from_slice(
        b"# HELP connect_gateway_replies_total Replies by the plan of their call, and by what ended it or why there was none.\n\
          # TYPE connect_gateway_replies_total counter\n",
    )?;
    for (place, totals) in figures.totals.iter().enumerate() {
        match figures.names.paths.get(place) {
            Some(path) => add_endings(
                text,
                path.as_str().as_bytes(),
                &ALL_ENDINGS[..OF_CALLS],
                totals,
            )?,
            None => add_endings(text, b"", &ALL_ENDINGS[OF_CALLS..], totals)?,
        }
    }
    Ok(())
}

/// A line for each of these endings.
fn add_endings(
    text: &mut Vec<u8>,
    path: &[u8],
    endings: &[Ended],
    totals: &PlanTotals,
) -> Result<(), AllocError> {
    for ended in endings {
        let count = totals.ended.get(place_of_ending(*ended)).copied();
        add_first(text, "connect_gateway_replies_total", "plan", path)?;
        add_label(text, "ending", ended.name().as_bytes())?;
        add_number(text, count.unwrap_or(0))?;
    }
    Ok(())
}

fn add_rejections(text: &mut Vec<u8>, rejections: &Rejections) -> Result<(), AllocError> {
    text.extend_from_slice(
        b"# HELP connect_gateway_rejections_total Replies to what is no call, by what it was and their status. \
          A status that never came has no line.\n\
          # TYPE connect_gateway_rejections_total counter\n",
    )?;
    for (place, count) in rejections.counts.iter().enumerate() {
        if *count > 0 {
            add_rejection(text, place, *count)?;
        }
    }
    Ok(())
}

/// The line of the ending and the status in that place.
fn add_rejection(text: &mut Vec<u8>, place: usize, count: u64) -> Result<(), AllocError> {
    let ended = REJECTIONS.get(place / STATUSES.len());
    let status = STATUSES.get(place % STATUSES.len());
    if let (Some(ended), Some(status)) = (ended, status) {
        let name = "connect_gateway_rejections_total";
        add_first(text, name, "ending", ended.name().as_bytes())?;
        let mut digits = itoa::Buffer::new();
        add_label(text, "status", digits.format(*status).as_bytes())?;
        add_number(text, count)?;
    }
    Ok(())
}

fn add_times(text: &mut Vec<u8>, figures: &Figures<'_>) -> Result<(), AllocError> {
    text.extend_from_slice(
        b"# HELP connect_gateway_reply_seconds Time from a call's arrival until its reply was written, by plan.\n\
          # TYPE connect_gateway_reply_seconds histogram\n",
    )?;
    for (path, totals) in figures.names.paths.iter().zip(figures.totals.iter()) {
        add_histogram(text, path.as_str().as_bytes(), totals)?;
    }
    Ok(())
}

fn add_histogram(text: &mut Vec<u8>, path: &[u8], totals: &PlanTotals) -> Result<(), AllocError> {
    let mut count: u64 = 0;
    for (bound, more) in BOUNDS.iter().zip(totals.took.iter()) {
        count = count.saturating_add(*more);
        add_first(text, "connect_gateway_reply_seconds_bucket", "plan", path)?;
        add_label(text, "le", bound.as_bytes())?;
        add_number(text, count)?;
    }
    add_first(text, "connect_gateway_reply_seconds_sum", "plan", path)?;
    add_seconds(text, totals.milliseconds)?;
    add_first(text, "connect_gateway_reply_seconds_count", "plan", path)?;
    add_number(text, count)
}

fn add_asked(text: &mut Vec<u8>, figures: &Figures<'_>) -> Result<(), AllocError> {
    text.extend_from_slice(
        b"# HELP connect_gateway_branches_total Branches whose backend was asked, by what ended that. \
          What never happened has no line.\n\
          # TYPE connect_gateway_branches_total counter\n",
    )?;
    for (branch, totals) in figures.names.branches.iter().zip(figures.asked.iter()) {
        for (cause, count) in ALL_CAUSES.iter().zip(totals.ended.iter()) {
            if *count > 0 {
                add_branch(text, "connect_gateway_branches_total", branch, *cause)?;
                add_number(text, *count)?;
            }
        }
    }
    Ok(())
}

fn add_waits(text: &mut Vec<u8>, figures: &Figures<'_>) -> Result<(), AllocError> {
    text.extend_from_slice(
        b"# HELP connect_gateway_branch_seconds_total How long these branches took together.\n\
          # TYPE connect_gateway_branch_seconds_total counter\n",
    )?;
    for (branch, totals) in figures.names.branches.iter().zip(figures.asked.iter()) {
        for (place, cause) in ALL_CAUSES.iter().enumerate() {
            if totals.ended.get(place).is_some_and(|count| *count > 0) {
                let milliseconds = totals.milliseconds.get(place).copied();
                add_branch(text, "connect_gateway_branch_seconds_total", branch, *cause)?;
                add_seconds(text, milliseconds.unwrap_or(0))?;
            }
        }
    }
    Ok(())
}

/// Begins a line of a branch and a cause.
fn add_branch(
    text: &mut Vec<u8>,
    name: &str,
    branch: &BranchName,
    cause: Cause,
) -> Result<(), AllocError> {
    add_first(text, name, "plan", branch.plan.as_str().as_bytes())?;
    add_label(text, "branch", branch.name.as_str().as_bytes())?;
    add_label(text, "cause", cause.name().as_bytes())
}

fn add_loops(text: &mut Vec<u8>, loops: &[LoopFigures]) -> Result<(), AllocError> {
    text.extend_from_slice(
        b"# HELP connect_gateway_open_connections Connections that are open, by worker.\n\
          # TYPE connect_gateway_open_connections gauge\n",
    )?;
    for (worker, figures) in loops.iter().enumerate() {
        add_of_worker(
            text,
            "connect_gateway_open_connections",
            worker,
            figures.connections,
        )?;
    }
    text.extend_from_slice(
        b"# HELP connect_gateway_backend_exchanges Backends that are asked, by worker.\n\
          # TYPE connect_gateway_backend_exchanges gauge\n",
    )?;
    for (worker, figures) in loops.iter().enumerate() {
        add_of_worker(
            text,
            "connect_gateway_backend_exchanges",
            worker,
            figures.exchanges,
        )?;
    }
    Ok(())
}

/// Adds a line for each of these figures.
fn add_kept(text: &mut Vec<u8>, figures: &KeptFigures) -> Result<(), AllocError> {
    text.extend_from_slice(
        b"# HELP connect_gateway_backend_connections_total Connections to backends: opened, used again, \
          and closed while they were kept, by why.\n\
          # TYPE connect_gateway_backend_connections_total counter\n",
    )?;
    let name = "connect_gateway_backend_connections_total";
    for (event, count) in [
        ("opened", figures.opened),
        ("used again", figures.used),
        ("time over", figures.expired),
        ("ended by backend", figures.ended),
        ("unasked bytes", figures.unasked),
        ("place needed", figures.displaced),
    ] {
        add_first(text, name, "event", event.as_bytes())?;
        add_number(text, count)?;
    }
    Ok(())
}

fn add_kept_now(text: &mut Vec<u8>, loops: &[LoopFigures]) -> Result<(), AllocError> {
    text.extend_from_slice(
        b"# HELP connect_gateway_kept_connections Connections to backends that are kept and not used now, by worker.\n\
          # TYPE connect_gateway_kept_connections gauge\n",
    )?;
    for (worker, figures) in loops.iter().enumerate() {
        add_of_worker(
            text,
            "connect_gateway_kept_connections",
            worker,
            figures.kept,
        )?;
    }
    Ok(())
}

fn add_of_worker(
    text: &mut Vec<u8>,
    name: &str,
    worker: usize,
    count: u64,
) -> Result<(), AllocError> {
    add_first(
        text,
        name,
        "worker",
        itoa::Buffer::new().format(worker).as_bytes(),
    )?;
    add_number(text, count)
}

fn add_closed(text: &mut Vec<u8>, count: u64) -> Result<(), AllocError> {
    text.extend_from_slice(
        b"# HELP connect_gateway_streams_closed_total Streams that were closed without a byte: \
          all connections were in use, or memory was refused.\n\
          # TYPE connect_gateway_streams_closed_total counter\n\
          connect_gateway_streams_closed_total ",
    )?;
    text.extend_from_slice(itoa::Buffer::new().format(count).as_bytes())?;
    text.extend_from_slice(b"\n")
}

fn add_broken(text: &mut Vec<u8>, count: u64) -> Result<(), AllocError> {
    text.extend_from_slice(
        b"# HELP connect_gateway_connections_broken_total Connections that broke, for want of memory.\n\
          # TYPE connect_gateway_connections_broken_total counter\n\
          connect_gateway_connections_broken_total ",
    )?;
    text.extend_from_slice(itoa::Buffer::new().format(count).as_bytes())?;
    text.extend_from_slice(b"\n")
}

fn add_left_out(text: &mut Vec<u8>, count: u64) -> Result<(), AllocError> {
    text.extend_from_slice(
        b"# HELP connect_gateway_log_lines_left_out_total Lines of the log that were left out, as their reader stalled or failed.\n\
          # TYPE connect_gateway_log_lines_left_out_total counter\n\
          connect_gateway_log_lines_left_out_total ",
    )?;
    text.extend_from_slice(itoa::Buffer::new().format(count).as_bytes())?;
    text.extend_from_slice(b"\n")
}
