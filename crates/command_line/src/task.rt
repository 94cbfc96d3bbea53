ghost use Rattle.std.specs.Prelude.{◌≡◌, ◌≢◌, ◌≤◌, codes, IfErr, IfOk, IfSome};
ghost use Rattle.clap.specs.Matches.{first_value, found_of};
ghost use Rattle.clap.specs.Values.{kind_of};
ghost use Rattle.command_line.specs.Task.{AreShort, IsKeeping, IsInRange, IsOfWords, word_of_log};

use clap::error::ErrorKind;
use clap::{Arg, ArgAction, ArgMatches, Command, Error, value_parser};
use http_pieces::Text;
use script_replay::Fault;
use std::alloc::{AllocError, Global};

/// So many workers are the most.
const MOST_WORKERS: u32 = 64;

/// So many accepted streams are the most that can be asked for.
const MOST_CONNECTIONS: u64 = 1_000_000;

/// So many seconds are the most that a stage of a drain may last.
const MOST_SECONDS: u64 = 3_600;

/// For so many seconds calls go on in a drain, if it is not said.
const USUAL_GRACE: u64 = 10;

/// What the words ask for.
#[derive(Drop, PartialEq, Eq, Debug)]
pub enum Task {
    /// Runs the script on standard input.
    Replay,
    /// Serves clients over TCP.
    Serve(Service),
    /// Says whether a file is fine, or what is wrong with it and where.
    Check(Checked),
    /// Tells the program's version.
    Version,
}

/// What is to be checked, and how.
#[derive(Drop, PartialEq, Eq, Debug)]
pub struct Checked {
    pub file: CheckedFile,
    /// Whether a file with warnings is refused too.
    pub strict: bool,
    /// Where a gateway with these plans is to listen.
    pub own: OwnAddresses,
}

/// The addresses at which a gateway is to listen, as they were given: each a host and a port, so far as they are said.
#[derive(Drop, PartialEq, Eq, Debug)]
pub struct OwnAddresses {
    pub listen: Option<Text>,
    pub admin: Option<Text>,
    pub ready: Option<Text>,
}

/// A file that is to be checked, by its path as it was given.
#[derive(Drop, PartialEq, Eq, Debug)]
pub enum CheckedFile {
    /// As a plan file.
    Plans(Text),
    /// As a script.
    Script(Text),
}

impl OwnAddresses {
    /// Whether none is said.
    fn is_silent(&self) -> bool {
        self.listen.is_none() && self.admin.is_none() && self.ready.is_none()
    }
}

/// How clients are to be served.
#[derive(Drop, PartialEq, Eq, Debug)]
pub struct Service {
    /// The address to listen at, as it was given: a host and a port.
    pub listen: Text,
    /// The path of the plan file, as it was given.
    pub plans: Text,
    /// How many event loops serve: 1 to 64.
    pub workers: u32,
    /// How many streams are accepted before the program ends, 1 to 1,000,000; None where it goes on.
    pub connections: Option<u64>,
    /// What is told on standard error.
    pub log: Log,
    /// The address for operators, if there is to be one.
    pub admin: Option<Admin>,
    /// The address for those who watch alone, as it was given, if there is to be one.
    pub ready: Option<Text>,
    /// Whether replies of backends may come in chunks (RFC 9112, section 7.1).
    pub chunked: bool,
    /// For how many seconds a connection to a backend is kept behind its reply, to be used again: 1 to 3,600; None
    /// where none is.
    pub keep: Option<u64>,
}

/// What is told on standard error.
#[derive(Clone, Copy, PartialEq, Eq, Debug)]
pub enum Log {
    /// Nothing.
    Off,
    /// What becomes of calls, and of branches that fail or are given up.
    Failures,
    /// What becomes of calls, and of all branches.
    All,
}

/// An address for operators, and how a gateway that is drained there ends.
#[derive(Drop, PartialEq, Eq, Debug)]
pub struct Admin {
    /// The address to listen at, as it was given: a host and a port.
    pub address: Text,
    /// For how many seconds streams are still accepted: 0 to 3,600.
    pub drain_after: u64,
    /// For how many seconds calls go on then: 0 to 3,600.
    pub grace: u64,
}

/// Reads the machine's words, the program's name first. All but a task are `Fault::Words`, a request for help too;
/// want of memory is `Fault::Memory`.
pub fn task_of(alloc: Global, words: &[&str]) -> Result<Task, Fault>
    ensures faults { IfErr result IsOfWords }
    ensures in_range { IfOk result IsInRange }
{
    let command = command(alloc).map_err(|_| Fault::Memory)?;
    let matches = command.try_get_matches_from(words).map_err(refusal)?;
    match matches.subcommand() {
        Some(("replay", _)) => Ok(Task::Replay),
        Some(("serve", options)) => service_of(alloc, options),
        Some(("check", options)) => checked_of(alloc, options),
        Some(("version", _)) => Ok(Task::Version),
        _ => Err(Fault::Words),
    }
}

fn command<'a>(alloc: Global) -> Result<Command<'a>, AllocError> {
    Command::new(alloc, "connect_gateway")
        .subcommand(Command::new(alloc, "replay"))?
        .subcommand(serve_command(alloc)?)?
        .subcommand(check_command(alloc)?)?
        .subcommand(Command::new(alloc, "version"))
}

fn serve_command<'a>(alloc: Global) -> Result<Command<'a>, AllocError> {
    Command::new(alloc, "serve")
        .arg(option(alloc, "listen").required(true))?
        .arg(option(alloc, "plans").required(true))?
        .arg(number(alloc, "workers").required(true))?
        .arg(number(alloc, "connections"))?
        .arg(log_option(alloc))?
        .arg(option(alloc, "admin"))?
        .arg(number(alloc, "drain-after"))?
        .arg(number(alloc, "grace"))?
        .arg(option(alloc, "ready"))?
        .arg(option(alloc, "chunked").action(ArgAction::SetTrue))?
        .arg(number(alloc, "keep"))
}

fn check_command<'a>(alloc: Global) -> Result<Command<'a>, AllocError> {
    Command::new(alloc, "check")
        .arg(option(alloc, "plans"))?
        .arg(option(alloc, "script"))?
        .arg(option(alloc, "strict").action(ArgAction::SetTrue))?
        .arg(option(alloc, "listen"))?
        .arg(option(alloc, "admin"))?
        .arg(option(alloc, "ready"))
}

/// An option of that name.
fn option<'a>(alloc: Global, name: &'a str) -> Arg<'a> {
    Arg::new(alloc, name).long(name)
}

/// The option for the log, with a value or none.
fn log_option<'a>(alloc: Global) -> Arg<'a> {
    option(alloc, "log")
        .num_args(0..=1)
        .default_missing_value("")
}

/// An option whose value is a whole number.
fn number<'a>(alloc: Global, name: &'a str) -> Arg<'a> {
    option(alloc, name).value_parser(value_parser!(u64))
}

fn refusal(error: Error) -> Fault
    ensures words { IsOfWords result }
    ensures memory { kind_of error ≡ ErrorKind.OutOfMemory → result ≡ Fault.Memory }
    ensures others { kind_of error ≢ ErrorKind.OutOfMemory → result ≡ Fault.Words }
{
    match error.kind() {
        ErrorKind::OutOfMemory => Fault::Memory,
        _ => Fault::Words,
    }
}

fn service_of(alloc: Global, options: &ArgMatches<'_>) -> Result<Task, Fault>
    ensures faults { IfErr result IsOfWords }
    ensures in_range { IfOk result IsInRange }
{
    let workers = match options.get_one::<u32>("workers") {
        Some(workers) if 1 <= workers && workers <= MOST_WORKERS => workers,
        _ => return Err(Fault::Words),
    };
    let connections = options.get_one::<u64>("connections");
    if let Some(count) = connections {
        if count < 1 || MOST_CONNECTIONS < count {
            return Err(Fault::Words);
        }
    }
    Ok(Task::Serve(Service {
        listen: text_of(alloc, options, "listen")?,
        plans: text_of(alloc, options, "plans")?,
        workers,
        connections,
        log: log_of(options)?,
        admin: admin_of(alloc, options)?,
        ready: text_at(alloc, options, "ready")?,
        chunked: options.get_flag("chunked"),
        keep: keep_of(options)?,
    }))
}

/// What is told on standard error.
fn log_of(options: &ArgMatches<'_>) -> Result<Log, Fault>
    ensures faults { IfErr result IsOfWords }
    ensures said { IfOk result (λ log. first_value (found_of options.now) (codes "log") ≡ word_of_log log) }
{
    match options.get_str("log") {
        None => Ok(Log::Off),
        Some("") => Ok(Log::Failures),
        Some("all") => Ok(Log::All),
        Some(_) => Err(Fault::Words),
    }
}

/// The address for operators. How a drain goes is said only with it.
fn admin_of(alloc: Global, options: &ArgMatches<'_>) -> Result<Option<Admin>, Fault>
    ensures faults { IfErr result IsOfWords }
    ensures in_range { IfOk result (λ admin. IfSome admin AreShort) }
{
    let drain_after = seconds_of(options, "drain-after")?;
    let grace = seconds_of(options, "grace")?;
    let Some(address) = options.get_str("admin") else {
        return match (drain_after, grace) {
            (None, None) => Ok(None),
            _ => Err(Fault::Words),
        };
    };
    Ok(Some(Admin {
        address: Text::from_str(alloc, address)?,
        drain_after: drain_after.unwrap_or(0),
        grace: grace.unwrap_or(USUAL_GRACE),
    }))
}

/// For how many seconds connections to backends are kept, if they are.
fn keep_of(options: &ArgMatches<'_>) -> Result<Option<u64>, Fault>
    ensures faults { IfErr result IsOfWords }
    ensures in_range { IfOk result (λ keep. IfSome keep IsKeeping) }
{
    match seconds_of(options, "keep")? {
        Some(0) => Err(Fault::Words),
        keep => Ok(keep),
    }
}

/// The seconds that an option says, if it is given.
fn seconds_of(options: &ArgMatches<'_>, name: &str) -> Result<Option<u64>, Fault>
    ensures faults { IfErr result IsOfWords }
    ensures in_range { IfOk result (λ seconds. IfSome seconds (λ count. count ≤ 3600)) }
{
    match options.get_one::<u64>(name) {
        Some(seconds) if MOST_SECONDS < seconds => Err(Fault::Words),
        seconds => Ok(seconds),
    }
}

/// One of the two files is named, and not both. Beside a plan file may be said where a gateway is to listen.
fn checked_of(alloc: Global, options: &ArgMatches<'_>) -> Result<Task, Fault>
    ensures faults { IfErr result IsOfWords }
    ensures in_range { IfOk result IsInRange }
{
    let own = OwnAddresses {
        listen: text_at(alloc, options, "listen")?,
        admin: text_at(alloc, options, "admin")?,
        ready: text_at(alloc, options, "ready")?,
    };
    let file = match (options.get_str("plans"), options.get_str("script")) {
        (Some(plans), None) => CheckedFile::Plans(Text::from_str(alloc, plans)?),
        (None, Some(script)) if own.is_silent() => {
            CheckedFile::Script(Text::from_str(alloc, script)?)
        }
        _ => return Err(Fault::Words),
    };
    let strict = options.get_flag("strict");
    Ok(Task::Check(Checked { file, strict, own }))
}

/// The value of an option, if it is given.
fn text_at(
    alloc: Global,
    options: &ArgMatches<'_>,
    name: &str,
) -> Result<Option<Text>, AllocError> {
    match options.get_str(name) {
        Some(text) => Ok(Some(Text::from_str(alloc, text)?)),
        None => Ok(None),
    }
}

/// The value of an option that has to be given.
fn text_of(alloc: Global, options: &ArgMatches<'_>, name: &str) -> Result<Text, Fault>
    ensures { IfErr result IsOfWords }
{
    match text_at(alloc, options, name)? {
        Some(text) => Ok(text),
        None => Err(Fault::Words),
    }
}
