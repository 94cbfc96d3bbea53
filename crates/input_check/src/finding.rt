use crate::complaint::Complaint;
use crate::form::Form;
use serde_json::Value;

/// Where something was found. Plans and branches count from 1, events from 0 as in a script's text.
#[derive(Clone, Copy, Drop)]
pub(crate) enum Place<'v> {
    /// The file as a whole.
    File,
    /// Of the file's text: the line and the byte in it, from 1.
    Text(usize, usize),
    /// That plan, with what stands at its path.
    Plan(usize, Option<&'v Value>),
    /// Of that plan, that branch.
    Branch(usize, Option<&'v Value>, usize),
    /// That event.
    Event(usize),
    /// That event, of that form.
    FormedEvent(usize, Form),
}

impl<'v> Place<'v> {
    /// That branch of the plan that this is.
    pub(crate) fn branch(&self, branch: usize) -> Place<'v> {
        match self {
            Place::Plan(plan, path) => Place::Branch(*plan, *path, branch),
            place => *place,
        }
    }
}

/// One thing that was found: where, at which key or element, what stands there, and what is wrong with it.
#[derive(Clone, Copy, Drop)]
pub(crate) struct Finding<'v> {
    pub(crate) place: Place<'v>,
    /// The key or element; empty where it is the place itself.
    pub(crate) name: &'v str,
    pub(crate) value: Option<&'v Value>,
    pub(crate) complaint: Complaint,
    /// The key that may have been meant; empty for none.
    pub(crate) meant: &'static str,
}

impl<'v> Finding<'v> {
    /// At a place as a whole.
    pub(crate) fn at(place: Place<'v>, complaint: Complaint) -> Finding<'v> {
        Finding {
            place,
            name: "",
            value: None,
            complaint,
            meant: "",
        }
    }

    /// At a key or element of a place, where this value stands, or none.
    pub(crate) fn of(
        place: Place<'v>,
        name: &'v str,
        value: Option<&'v Value>,
        complaint: Complaint,
    ) -> Finding<'v> {
        Finding {
            place,
            name,
            value,
            complaint,
            meant: "",
        }
    }

    /// With the key that may have been meant.
    pub(crate) fn meaning(self, meant: &'static str) -> Finding<'v> {
        Finding { meant, ..self }
    }
}
