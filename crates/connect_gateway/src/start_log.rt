ghost use Rattle.std.specs.Prelude.{⊤};

use crate::log_writer::milliseconds_since_1970;
use access_log::{Listening, Remark, remark_line, start_line};
use command_line::Service;
use input_files::PlanFile;
use script_replay::Fault;
use std::alloc::Global;
use std::fmt::Display;
use std::io::{self, Eprint};
use std::marker::Model;
use std::time::Clock;

/// What is told on standard error before the first stream is accepted, with `--log` alone but for one warning.
#[derive(Drop)]
pub(crate) struct StartLog<M> {
    rt: M,
    alloc: Global,
    speaks: bool,
}

// Clauses see nothing of it, which keeps proofs small.
impl<M> Model for StartLog<M> {
    ghost Value = { ⊤ };

    ghost view = { λ _. tt };
}

impl<M: Clock + Eprint> StartLog<M> {
    /// One that speaks, or not.
    pub(crate) fn new(rt: M, alloc: Global, speaks: bool) -> StartLog<M> {
        StartLog { rt, alloc, speaks }
    }

    /// The system failed there, as this error says. Answers the fault that it is.
    pub(crate) fn failed(&self, subject: &str, error: io::Error) -> Fault {
        self.remark(Remark::Fault, subject, &error);
        Fault::from(error)
    }

    /// Something is wrong there. Answers that fault.
    pub(crate) fn refused(&self, subject: &str, text: &str, fault: Fault) -> Fault {
        self.remark(Remark::Fault, subject, &text);
        fault
    }

    /// Tells what `check` says of the plan file beside that it is fine: its warnings, and why it is refused. The gateway
    /// listens at these addresses.
    pub(crate) fn report(&self, path: &str, file: &PlanFile, own: &[&str]) {
        if !self.speaks {
            return;
        }
        if let Ok(report) = file.report(self.alloc, path, own) {
            for line in report.as_str().lines() {
                if let Some(text) = line.strip_prefix("refused: ") {
                    self.tell(Remark::Fault, text);
                } else if let Some(text) = line.strip_prefix("warning: ") {
                    self.tell(Remark::Warning, text);
                }
            }
        }
    }

    /// Tells what may not go as it is meant; where it does not speak, by a plain line.
    pub(crate) fn warn(&self, subject: &str, text: &str) {
        if self.speaks {
            self.remark(Remark::Warning, subject, &text);
        } else if let Ok(line) = format!(in self.alloc; "connect_gateway: {subject}: {text}") {
            let _ = self.rt.eprintln(line.as_str());
        }
    }

    /// Tells that it listens, and what it serves.
    pub(crate) fn listens(&self, service: &Service, plans: usize) {
        if !self.speaks {
            return;
        }
        let time = milliseconds_since_1970(&self.rt);
        let listening = Listening {
            listen: service.listen.as_str(),
            admin: service.admin.as_ref().map(|admin| admin.address.as_str()),
            keep: service.keep,
            plans,
            workers: service.workers,
        };
        if let Ok(line) = start_line(self.alloc, time, &listening) {
            let _ = self.rt.eprintln(line.as_str());
        }
    }

    fn remark<T: Display>(&self, remark: Remark, subject: &str, text: &T) {
        if !self.speaks {
            return;
        }
        if let Ok(text) = format!(in self.alloc; "{subject}: {text}") {
            self.tell(remark, text.as_str());
        }
    }

    fn tell(&self, remark: Remark, text: &str) {
        let time = milliseconds_since_1970(&self.rt);
        if let Ok(line) = remark_line(self.alloc, time, remark, text) {
            let _ = self.rt.eprintln(line.as_str());
        }
    }
}
