use crate::complaint::Complaint;
use crate::finding::{Finding, Place};
use crate::form::Form;
use serde_json::Value;

/// The first event that is none, and why.
pub(crate) fn first_event_fault(events: &[Value]) -> Option<Finding<'_>> {
    for (k, event) in events.iter().enumerate() {
        let found = event_fault(k, event);
        if found.is_some() {
            return found;
        }
    }
    None
}

fn event_fault(k: usize, event: &Value) -> Option<Finding<'_>> {
    let word = event.get(0);
    let Some(text) = word.and_then(Value::as_str) else {
        return Some(Finding::at(Place::Event(k), Complaint::NoWord));
    };
    let Some(form) = Form::of_word(text) else {
        return Some(Finding::of(Place::Event(k), "", word, Complaint::UnknownWord));
    };
    let elements = elements_of(event);
    if elements.len() != form.len() {
        return Some(Finding::at(Place::FormedEvent(k, form), Complaint::WrongCount));
    }
    first_element_fault(k, form, elements)
}

/// The elements of an array; none of what is no array.
pub(crate) fn elements_of(value: &Value) -> &[Value] {
    match value.as_array() {
        Some(elements) => elements.as_slice(),
        None => &[],
    }
}

fn first_element_fault(k: usize, form: Form, elements: &[Value]) -> Option<Finding<'_>> {
    for (place, value) in elements.iter().enumerate() {
        let (kind, name) = form.element(place);
        if !kind.fits(value) {
            return Some(Finding::of(
                Place::FormedEvent(k, form),
                name,
                Some(value),
                kind.complaint(),
            ));
        }
    }
    None
}
