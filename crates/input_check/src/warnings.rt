ghost use Rattle.std.specs.Prelude.{◌≡◌, IfOk, IsTrue, [], ◌↔◌};
ghost use Rattle.input_check.specs.Report.{AreWarnings};

use crate::finding::Finding;
use crate::lines::{Lines, push_finding};
use std::alloc::{AllocError, Global};
use std::marker::Model;

/// Warnings of the file of that name, a line each. Once memory was refused to them they take no more, and have no text.
/// Contracts see what they have taken.
#[derive(Drop)]
pub(crate) struct Warnings<'n> {
    alloc: Global,
    name: &'n str,
    text: String,
    is_refused: bool,
}

impl<'n> Model for Warnings<'n> {
    ghost use Rattle.std.specs.Prelude.{List, ℕ, string_bytes};
    ghost use Rattle.input_check.specs.Report.{AreWarnings};

    ghost Value = { List ℕ };

    ghost view = { λ w. string_bytes w.text };

    ghost invariant = { λ w. AreWarnings (string_bytes w.text) };
}

impl<'n> Warnings<'n> {
    /// None yet.
    pub(crate) fn new(alloc: Global, name: &'n str) -> Warnings<'n> {
        Warnings {
            alloc,
            name,
            text: String::new(alloc),
            is_refused: false,
        }
    }

    /// Adds the line of a finding.
    pub(crate) fn add(&mut self, found: &Finding<'_>) {
        if self.is_refused || self.push(found).is_err() {
            self.is_refused = true;
        }
    }

    fn push(&mut self, found: &Finding<'_>) -> Result<(), AllocError> {
        let mut line = Lines::new(self.alloc, self.name);
        push_finding(&mut line, found);
        let line = line.text()?;
        self.text.push_str("warning: ")?;
        self.text.push_str(line)
    }

    /// Memory was refused to what looks for one.
    pub(crate) fn refuse(&mut self) {
        self.is_refused = true;
    }

    /// Whether there are none.
    pub(crate) fn is_empty(&self) -> bool
        ensures { IsTrue result ↔ (self.now ≡ []) }
    {
        self.text.is_empty()
    }

    /// Their lines, unless memory was refused to them.
    pub(crate) fn text(&self) -> Result<&str, AllocError>
        ensures text { IfOk result (λ text. text.now ≡ self.now) }
        ensures warnings { IfOk result (λ text. AreWarnings text.now) }
    {
        if self.is_refused {
            Err(AllocError)
        } else {
            Ok(self.text.as_str())
        }
    }
}
