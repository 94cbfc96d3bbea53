//! What the log says before the first stream is accepted.
ghost use Rattle.std.specs.Prelude.{◌≡◌, IfOk, None, Some, string_bytes};
ghost use Rattle.serde_json.specs.Read.{read};
ghost use Rattle.access_log.specs.declared.start.Remark.TheVariants.{Fault, Warning};
ghost use Rattle.access_log.specs.Start.{remark_document, remark_line, served_by, start_document, start_line};

use crate::members::{Leaf, object_text};
use std::alloc::{AllocError, Global};

/// What a gateway serves, and how.
#[derive(Clone, Copy, Debug)]
pub struct Listening<'a> {
    /// The addresses at which clients and operators are listened for, as they were given.
    pub listen: &'a str,
    pub admin: Option<&'a str>,
    /// For how many seconds connections to backends are kept; None where none is.
    pub keep: Option<u64>,
    /// How many plans it serves.
    pub plans: usize,
    pub workers: u32,
}

/// The line that tells that the gateway listens, at that time in milliseconds from 1970: an object in JSON, with no LF.
pub fn start_line(alloc: Global, time: u64, listening: &Listening<'_>) -> Result<String, AllocError>
    ensures text { IfOk result (λ line. string_bytes line ≡ start_line time (served_by listening.now)) }
    ensures reads_back { IfOk result (λ line.
        read (string_bytes line) ≡ Some (start_document time (served_by listening.now))) }
{
    match listening.keep {
        Some(keep) => keeping_line(alloc, time, listening, keep),
        None => plain_line(alloc, time, listening),
    }
}

/// The line of a gateway that keeps connections to backends for so many seconds.
#[tactic(auto, unfolding(crate::specs::Start::start_line))]
fn keeping_line(
    alloc: Global,
    time: u64,
    listening: &Listening<'_>,
    keep: u64,
) -> Result<String, AllocError>
    requires { listening.now.keep ≡ Some keep }
    ensures text { IfOk result (λ line. string_bytes line ≡ start_line time (served_by listening.now)) }
    ensures reads_back { IfOk result (λ line.
        read (string_bytes line) ≡ Some (start_document time (served_by listening.now))) }
{
    object_text(
        alloc,
        &[
            ("admin", Leaf::of_text(listening.admin)),
            ("keep", Leaf::Number(keep)),
            ("listen", Leaf::Text(listening.listen)),
            ("plans", Leaf::Number(listening.plans as u64)),
            ("time", Leaf::Number(time)),
            ("workers", Leaf::Number(u64::from(listening.workers))),
        ],
    )
}

/// The line of a gateway that keeps none.
#[tactic(auto, unfolding(crate::specs::Start::start_line))]
fn plain_line(alloc: Global, time: u64, listening: &Listening<'_>) -> Result<String, AllocError>
    requires { listening.now.keep ≡ None }
    ensures text { IfOk result (λ line. string_bytes line ≡ start_line time (served_by listening.now)) }
    ensures reads_back { IfOk result (λ line.
        read (string_bytes line) ≡ Some (start_document time (served_by listening.now))) }
{
    object_text(
        alloc,
        &[
            ("admin", Leaf::of_text(listening.admin)),
            ("listen", Leaf::Text(listening.listen)),
            ("plans", Leaf::Number(listening.plans as u64)),
            ("time", Leaf::Number(time)),
            ("workers", Leaf::Number(u64::from(listening.workers))),
        ],
    )
}

/// What a remark is.
#[derive(Clone, Copy, PartialEq, Eq, Debug)]
pub enum Remark {
    /// Why the program ends.
    Fault,
    /// What will not go as it may be meant.
    Warning,
}

/// The line of a remark, at that time in milliseconds from 1970: an object in JSON, with no LF.
pub fn remark_line(
    alloc: Global,
    time: u64,
    remark: Remark,
    text: &str,
) -> Result<String, AllocError>
    ensures text { IfOk result (λ line. string_bytes line ≡ remark_line time remark text.now) }
    ensures reads_back { IfOk result (λ line. read (string_bytes line) ≡ Some (remark_document time remark text.now)) }
{
    match remark {
        Remark::Fault => fault_line(alloc, time, text),
        Remark::Warning => warning_line(alloc, time, text),
    }
}

#[tactic(auto, unfolding(crate::specs::Start::remark_line))]
fn fault_line(alloc: Global, time: u64, text: &str) -> Result<String, AllocError>
    ensures text { IfOk result (λ line. string_bytes line ≡ remark_line time Fault text.now) }
    ensures reads_back { IfOk result (λ line. read (string_bytes line) ≡ Some (remark_document time Fault text.now)) }
{
    object_text(
        alloc,
        &[("fault", Leaf::Text(text)), ("time", Leaf::Number(time))],
    )
}

#[tactic(auto, unfolding(crate::specs::Start::remark_line))]
fn warning_line(alloc: Global, time: u64, text: &str) -> Result<String, AllocError>
    ensures text { IfOk result (λ line. string_bytes line ≡ remark_line time Warning text.now) }
    ensures reads_back { IfOk result (λ line. read (string_bytes line) ≡ Some (remark_document time Warning text.now)) }
{
    object_text(
        alloc,
        &[("time", Leaf::Number(time)), ("warning", Leaf::Text(text))],
    )
}
