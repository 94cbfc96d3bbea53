//! Which token of a text may not stand where it does. The reader of JSON says only where it stopped, and that may be
//! behind the token: it takes a token before it sees that none of its kind belongs there.
use crate::complaint::Complaint;
use crate::structure::{Mark, Marker};

/// What the reader of JSON takes.
const MOST_DEPTH: u32 = 127;

/// What may come next.
#[derive(Clone, Copy, PartialEq, Eq, Debug)]
enum Wants {
    /// A value, at the start or behind a colon.
    Value,
    /// A value, behind a comma of an array.
    Item,
    /// A value or the end of the array that has just begun.
    ItemOrEnd,
    /// A key, behind a comma of an object.
    Key,
    /// A key or the end of the object that has just begun.
    KeyOrEnd,
    Colon,
    /// Behind a value in an array or an object.
    CommaOrEnd,
    /// The value has ended, and with it the JSON.
    Nothing,
}

/// What a token is, by its first byte.
#[derive(Clone, Copy, PartialEq, Eq, Debug)]
enum Kind {
    BeginArray,
    BeginObject,
    EndArray,
    EndObject,
    Comma,
    Colon,
    /// In double quotes.
    Text,
    /// Anything else: a number, `true`, `false`, `null`, or what is none of them.
    Word,
}

/// The arrays and objects that are open, and what may come next in the innermost.
#[derive(Clone, Copy, Drop)]
struct Nesting {
    wants: Wants,
    depth: u32,
    /// A bit for each that is open, the innermost the lowest, set for an object.
    objects: u128,
}

impl Nesting {
    /// Before the first token.
    fn new() -> Nesting {
        Nesting {
            wants: Wants::Value,
            depth: 0,
            objects: 0,
        }
    }

    fn is_in_object(&self) -> bool {
        self.objects & 1 == 1
    }

    /// Takes the next token: what is wrong with it, if it may not stand there.
    fn take(&mut self, kind: Kind) -> Option<Complaint> {
        match kind {
            Kind::BeginArray => self.begin(false),
            Kind::BeginObject => self.begin(true),
            Kind::EndArray => self.end(false),
            Kind::EndObject => self.end(true),
            Kind::Comma => self.comma(),
            Kind::Colon => self.colon(),
            Kind::Text => self.text(),
            Kind::Word => self.word(),
        }
    }

    fn begin(&mut self, is_object: bool) -> Option<Complaint> {
        let unwanted = self.no_value();
        if unwanted.is_some() {
            return unwanted;
        }
        if self.depth >= MOST_DEPTH {
            return Some(Complaint::TooDeep);
        }
        self.depth += 1;
        self.objects = (self.objects << 1) | is_object as u128;
        self.wants = if is_object {
            Wants::KeyOrEnd
        } else {
            Wants::ItemOrEnd
        };
        None
    }

    fn end(&mut self, is_object: bool) -> Option<Complaint> {
        match self.wants {
            Wants::Nothing => return Some(Complaint::SecondValue),
            Wants::Colon => return Some(Complaint::NoColon),
            Wants::Value => return Some(Complaint::NoValue),
            Wants::Item | Wants::Key => return Some(Complaint::CommaBeforeEnd),
            Wants::ItemOrEnd | Wants::KeyOrEnd | Wants::CommaOrEnd => {}
        }
        if self.is_in_object() != is_object {
            return Some(self.other_end());
        }
        self.depth = self.depth.saturating_sub(1);
        self.objects >>= 1;
        self.value_ended();
        None
    }

    /// What to say where the innermost does not end as it began.
    fn other_end(&self) -> Complaint {
        if self.is_in_object() {
            Complaint::EndsObject
        } else {
            Complaint::EndsArray
        }
    }

    fn comma(&mut self) -> Option<Complaint> {
        match self.wants {
            Wants::CommaOrEnd => {
                self.wants = if self.is_in_object() {
                    Wants::Key
                } else {
                    Wants::Item
                };
                None
            }
            Wants::Key | Wants::KeyOrEnd => Some(Complaint::NoKey),
            Wants::Colon => Some(Complaint::NoColon),
            Wants::Nothing => Some(Complaint::SecondValue),
            Wants::Value | Wants::Item | Wants::ItemOrEnd => Some(Complaint::NoValue),
        }
    }

    fn colon(&mut self) -> Option<Complaint> {
        match self.wants {
            Wants::Colon => {
                self.wants = Wants::Value;
                None
            }
            Wants::Key | Wants::KeyOrEnd => Some(Complaint::NoKey),
            Wants::CommaOrEnd => Some(Complaint::StrayColon),
            Wants::Nothing => Some(Complaint::SecondValue),
            Wants::Value | Wants::Item | Wants::ItemOrEnd => Some(Complaint::NoValue),
        }
    }

    fn text(&mut self) -> Option<Complaint> {
        if matches!(self.wants, Wants::Key | Wants::KeyOrEnd) {
            self.wants = Wants::Colon;
            return None;
        }
        self.word()
    }

    fn word(&mut self) -> Option<Complaint> {
        let unwanted = self.no_value();
        if unwanted.is_none() {
            self.value_ended();
        }
        unwanted
    }

    /// What to say of a value, if none may stand here.
    fn no_value(&self) -> Option<Complaint> {
        match self.wants {
            Wants::Value | Wants::Item | Wants::ItemOrEnd => None,
            Wants::Key | Wants::KeyOrEnd => Some(Complaint::NoKey),
            Wants::Colon => Some(Complaint::NoColon),
            Wants::CommaOrEnd => Some(Complaint::NoComma),
            Wants::Nothing => Some(Complaint::SecondValue),
        }
    }

    fn value_ended(&mut self) {
        self.wants = if self.depth == 0 {
            Wants::Nothing
        } else {
            Wants::CommaOrEnd
        };
    }
}

/// What was found in a text up to some place.
#[derive(Clone, Copy, Drop)]
pub(crate) struct Passed {
    /// The first token that may not stand where it does: where it begins, and what is wrong.
    pub(crate) stray: Option<(usize, Complaint)>,
    /// Where the last word begins that stands before the place and may stand there.
    pub(crate) word: Option<usize>,
}

/// Passes over the tokens of a text that begin there or before.
pub(crate) fn pass_tokens(text: &[u8], last: usize) -> Passed {
    let mut marker = Marker::new();
    let mut nesting = Nesting::new();
    let mut is_in_word = false;
    let mut word = None;
    for (at, byte) in text.iter().enumerate() {
        if at > last {
            break;
        }
        let was_in_word = is_in_word;
        let kind = kind_of(marker.next(*byte), *byte);
        is_in_word = kind == Some(Kind::Word);
        if is_in_word && was_in_word {
            continue;
        }
        if let Some(complaint) = kind.and_then(|kind| nesting.take(kind)) {
            return Passed {
                stray: Some((at, complaint)),
                word,
            };
        }
        if is_in_word && at < last {
            word = Some(at);
        }
    }
    Passed { stray: None, word }
}

/// What a token with this byte is: none where the byte is blank, or stands in double quotes.
fn kind_of(mark: Mark, byte: u8) -> Option<Kind> {
    match (mark, byte) {
        (Mark::Quote, _) => Some(Kind::Text),
        (Mark::Quoted | Mark::EndQuote, _) => None,
        (Mark::Plain, b'[') => Some(Kind::BeginArray),
        (Mark::Plain, b'{') => Some(Kind::BeginObject),
        (Mark::Plain, b']') => Some(Kind::EndArray),
        (Mark::Plain, b'}') => Some(Kind::EndObject),
        (Mark::Plain, b',') => Some(Kind::Comma),
        (Mark::Plain, b':') => Some(Kind::Colon),
        (Mark::Plain, b' ' | b'\t' | b'\n' | b'\r') => None,
        (Mark::Plain, _) => Some(Kind::Word),
    }
}
