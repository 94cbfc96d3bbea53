use crate::finding::{Finding, Place};
use itoa::Buffer;
use serde_json::Value;
use std::alloc::{AllocError, Global};

/// So many letters of a value or a path are shown.
const MOST_SHOWN: usize = 80;

/// Lines of a report on the file of that name; it is not named where that is empty. Once memory was refused to them
/// they take no more, and have no text.
#[derive(Drop)]
pub(crate) struct Lines<'n> {
    alloc: Global,
    name: &'n str,
    text: String,
    is_refused: bool,
}

impl<'n> Lines<'n> {
    /// None yet.
    pub(crate) fn new(alloc: Global, name: &'n str) -> Lines<'n> {
        Lines {
            alloc,
            name,
            text: String::new(alloc),
            is_refused: false,
        }
    }

    pub(crate) fn push_str(&mut self, more: &str) {
        if !self.is_refused && self.text.push_str(more).is_err() {
            self.is_refused = true;
        }
    }

    /// Adds a letter, or a mark in place of one that would end the line.
    fn push(&mut self, letter: char) {
        let letter = if letter.is_control() { '?' } else { letter };
        if !self.is_refused && self.text.push(letter).is_err() {
            self.is_refused = true;
        }
    }

    /// The lines, unless memory was refused to them.
    pub(crate) fn text(&self) -> Result<&str, AllocError> {
        if self.is_refused {
            Err(AllocError)
        } else {
            Ok(self.text.as_str())
        }
    }

    /// Adds the file's name.
    fn push_name(&mut self) {
        if self.name.is_empty() {
            return;
        }
        let name = self.name;
        for letter in name.chars() {
            self.push(letter);
        }
        self.push_str(": ");
    }

    /// Adds a value as JSON; of an array or an object what it is alone.
    fn push_value(&mut self, value: &Value) {
        if value.is_array() {
            self.push_str("[..]");
        } else if value.is_object() {
            self.push_str("{..}");
        } else {
            match value.to_string(self.alloc) {
                Ok(text) => push_shown(self, text.as_str()),
                Err(_) => self.is_refused = true,
            }
        }
    }
}

/// Adds the line of a finding: the file, the place, the key or element with what stands there, and what is wrong.
pub(crate) fn push_finding(lines: &mut Lines<'_>, finding: &Finding<'_>) {
    lines.push_name();
    push_place(lines, &finding.place);
    let has_name = !finding.name.is_empty();
    if has_name {
        push_shown(lines, finding.name);
    }
    if let Some(value) = finding.value {
        if has_name {
            lines.push_str(" ");
        }
        lines.push_value(value);
    }
    if has_name || finding.value.is_some() {
        lines.push_str(": ");
    }
    lines.push_str(finding.complaint.text());
    if !finding.meant.is_empty() {
        lines.push_str(" ");
        lines.push_str(finding.meant);
    }
    lines.push_str("\n");
}

/// Adds a place, unless it is the file.
fn push_place(lines: &mut Lines<'_>, place: &Place<'_>) {
    match place {
        Place::File => return,
        Place::Text(line, column) => {
            push_count(lines, "line ", *line);
            push_count(lines, ", column ", *column);
        }
        Place::Plan(plan, path) => push_plan(lines, *plan, *path),
        Place::Branch(plan, path, branch) => {
            push_plan(lines, *plan, *path);
            push_count(lines, ", branch ", *branch);
        }
        Place::Event(event) => push_count(lines, "event ", *event),
        Place::FormedEvent(event, form) => {
            push_count(lines, "event ", *event);
            lines.push_str(", ");
            lines.push_str(form.text());
        }
    }
    lines.push_str(": ");
}

/// Adds a plan's number, and its path where it has a text there.
fn push_plan(lines: &mut Lines<'_>, plan: usize, path: Option<&Value>) {
    push_count(lines, "plan ", plan);
    if let Some(path) = path.and_then(Value::as_str) {
        lines.push_str(" (");
        push_shown(lines, path);
        lines.push_str(")");
    }
}

/// Adds a number, with a text in front of it.
pub(crate) fn push_count(lines: &mut Lines<'_>, before: &str, count: usize) {
    let mut buffer = Buffer::new();
    lines.push_str(before);
    lines.push_str(buffer.format(count));
}

/// Adds the first letters of a text, so that a line stays one.
pub(crate) fn push_shown(lines: &mut Lines<'_>, text: &str) {
    for (k, letter) in text.chars().enumerate() {
        if k == MOST_SHOWN {
            lines.push_str("..");
            return;
        }
        lines.push(letter);
    }
}
