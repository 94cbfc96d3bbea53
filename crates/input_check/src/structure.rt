//! What a text looks like between its texts in double quotes: a pass of its own over the bytes, since the value that is
//! read of them says neither where a key stood nor how often.
use std::alloc::{AllocError, Global};

/// What a byte of a text is.
#[derive(Clone, Copy, PartialEq, Eq, Debug)]
pub(crate) enum Mark {
    /// A text in double quotes begins.
    Quote,
    /// A text in double quotes ends.
    EndQuote,
    /// Of a text in double quotes.
    Quoted,
    /// Of anything else.
    Plain,
}

/// Tells bytes within double quotes from others.
#[derive(Drop)]
pub(crate) struct Marker {
    quoted: bool,
    escaped: bool,
}

impl Marker {
    pub(crate) fn new() -> Marker {
        Marker {
            quoted: false,
            escaped: false,
        }
    }

    /// What the next byte is.
    pub(crate) fn next(&mut self, byte: u8) -> Mark {
        if !self.quoted {
            self.quoted = byte == b'"';
            return if self.quoted {
                Mark::Quote
            } else {
                Mark::Plain
            };
        }
        if self.escaped {
            self.escaped = false;
        } else if byte == b'\\' {
            self.escaped = true;
        } else if byte == b'"' {
            self.quoted = false;
            return Mark::EndQuote;
        }
        Mark::Quoted
    }
}

/// A key that stands in its object for the second time: the line, the byte in it, both from 1, and which key.
#[derive(Clone, Copy)]
pub(crate) struct Repeated {
    pub(crate) line: usize,
    pub(crate) column: usize,
    pub(crate) key: &'static str,
}

/// An array or an object that has begun.
#[derive(Clone, Copy)]
struct Opened {
    is_object: bool,
    /// Which of the keys that are looked for it has had, bit by bit.
    had: u32,
}

/// The first of these keys, 32 at most, that an object of a text has twice. The text is JSON.
pub(crate) fn repeated_key(
    alloc: Global,
    text: &[u8],
    keys: &[&'static str],
) -> Result<Option<Repeated>, AllocError> {
    let mut marker = Marker::new();
    let mut opened = Vec::new(alloc);
    let mut awaits_key = false;
    let mut line = 1usize;
    let mut column = 0usize;
    let mut word = Word {
        begins: 0,
        column: 0,
    };
    for (at, byte) in text.iter().enumerate() {
        column = column.saturating_add(1);
        match (marker.next(*byte), *byte) {
            (Mark::Quote, _) => word = Word { begins: at, column },
            (Mark::EndQuote, _) if awaits_key => {
                awaits_key = false;
                if let Some(key) = had_before(&mut opened, word.of(text, at), keys) {
                    return Ok(Some(Repeated {
                        line,
                        column: word.column,
                        key,
                    }));
                }
            }
            (Mark::Plain, b'{' | b'[') => {
                awaits_key = *byte == b'{';
                opened.push(Opened {
                    is_object: awaits_key,
                    had: 0,
                })?;
            }
            (Mark::Plain, b'}' | b']') => {
                let _ended = opened.pop();
            }
            (Mark::Plain, b',') => awaits_key = opened.last().is_some_and(|last| last.is_object),
            (Mark::Plain, b'\n') => {
                line = line.saturating_add(1);
                column = 0;
            }
            _ => {}
        }
    }
    Ok(None)
}

/// A text in double quotes that has begun.
#[derive(Clone, Copy)]
struct Word {
    begins: usize,
    column: usize,
}

impl Word {
    /// Its bytes, where it ends there.
    fn of<'t>(&self, text: &'t [u8], end: usize) -> &'t [u8] {
        text.get(self.begins.saturating_add(1)..end).unwrap_or(&[])
    }
}

/// Notes a key of the innermost object, and tells it if that object has had it.
fn had_before(
    opened: &mut Vec<Opened>,
    word: &[u8],
    keys: &[&'static str],
) -> Option<&'static str> {
    let last = opened.last_mut()?;
    let mut bit = 1u32;
    for key in keys {
        if key.as_bytes() == word {
            if last.had & bit != 0 {
                return Some(*key);
            }
            last.had |= bit;
        }
        bit = bit.wrapping_shl(1);
    }
    None
}
