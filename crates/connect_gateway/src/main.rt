//! The gateway's program. `connect_gateway replay` runs the script on standard input and writes what was
//! queued for each connection to standard output. `connect_gateway serve` serves clients over TCP.
//! `connect_gateway check` says of a plan file or a script whether it is fine, or what is wrong with it and where.
#![tactic(auto)]

mod admin_door;
mod dealer;
mod entrance;
mod host;
mod log_writer;
mod loop_log;
mod loop_side;
mod looping;
mod main_side;
mod name_table;
mod resolver;
mod serve;
mod socket;
mod start_log;
mod visitor;
mod waiting;

use command_line::{Task, read_words, task_of};
use host::Host;
use input_files::check;
use script_replay::{Fault, replay};
use std::fs::Files;
use std::io::{self, Eprint, Write};
use std::net::{Net, TcpListener, TcpStream};
use std::process::ExitCode;
use std::rt::Env;

/// As CHANGELOG.md has it.
const VERSION: &str = "connect_gateway 0.3.0\n";

fn main(rt: HostRuntime) -> ExitCode {
    match run_words(rt) {
        Ok(()) => ExitCode::SUCCESS,
        Err(fault) => {
            // Nothing is left to do where standard error fails too.
            let _ = rt.eprintln(fault.line());
            ExitCode::from(fault.status())
        }
    }
}

/// Does what the program's arguments ask for.
fn run_words<
    M: Host
        + Net<Listener = TcpListener, Stream = TcpStream>
        + AllocGlobal
        + Env
        + Files
        + Input
        + Print,
>(rt: M) -> Result<(), Fault> {
    let alloc = rt.alloc();
    let owned = read_words(&rt)?;
    let mut words = Vec::new(alloc);
    for word in &owned {
        words.push(word.as_str())?;
    }
    match task_of(alloc, words.as_slice())? {
        Task::Replay => {
            let _written = replay(alloc, &mut rt.reader(), io::writer(&rt))?;
            Ok(())
        }
        Task::Serve(service) => serve::serve(rt, &service),
        Task::Check(checked) => check(&rt, &checked),
        Task::Version => {
            io::writer(&rt).write_all(VERSION.as_bytes())?;
            Ok(())
        }
    }
}
