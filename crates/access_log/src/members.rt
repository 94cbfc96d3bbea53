//! The text of an object in JSON, member after member: what `serde_json` writes of the document that has them, without
//! the document.
ghost use Rattle.std.specs.Prelude.{◌≡◌, IfOk, OnOk, Some, option_map, string_bytes, true};
ghost use Rattle.serde_json.specs.Data.{Members, boolean, no_members, null, number, object, string, unsigned};
ghost use Rattle.serde_json.specs.Read.{read};
ghost use Rattle.serde_json.specs.Written.{compact_text};
ghost use Rattle.access_log.specs.Leaves.{leaf_data, members_of};
ghost use Rattle.access_log.specs.Line.{number_or_null, text_or_null};
ghost use Rattle.access_log.specs.Members.{HasMembers, and_member, all_put};

use json::Writer;
use simdutf8::basic::from_utf8;
use std::alloc::{AllocError, Global};

/// A line has rarely more bytes.
const ROOM: usize = 320;

/// What stands at a key.
#[derive(Clone, Copy)]
pub(crate) enum Leaf<'a> {
    Text(&'a str),
    Number(u64),
    True,
    Null,
}

impl<'a> Leaf<'a> {
    /// A text, if there is one.
    pub(crate) fn of_text(text: Option<&'a str>) -> Leaf<'a>
        ensures { leaf_data result ≡ text_or_null (option_map (λ t. t.now) text.entry) }
    {
        match text {
            Some(text) => Leaf::Text(text),
            None => Leaf::Null,
        }
    }

    /// A number, if there is one.
    pub(crate) fn of_number(n: Option<u64>) -> Leaf<'a>
        ensures { leaf_data result ≡ number_or_null n }
    {
        match n {
            Some(n) => Leaf::Number(n),
            None => Leaf::Null,
        }
    }
}

/// The text of the object with these members, whose keys are in byte order.
pub(crate) fn object_text(alloc: Global, members: &[(&str, Leaf<'_>)]) -> Result<String, AllocError>
    ensures text { IfOk result (λ line. string_bytes line ≡ compact_text (object (members_of members.now))) }
    ensures reads_back { IfOk result (λ line. all_put (members_of members.now) no_members ≡ members_of members.now
        → read (string_bytes line) ≡ Some (object (members_of members.now))) }
{
    let mut out = begin(alloc)?;
    for &(key, leaf) in members {
        put(&mut out, key, leaf)?;
    }
    finish(alloc, out)
}

fn put(out: &mut Writer, key: &str, leaf: Leaf<'_>) -> Result<(), AllocError>
    ensures { OnOk result ((ms : Members) → HasMembers ms out.old
        → HasMembers (and_member ms key.now (leaf_data leaf.entry)) out.new) }
{
    match leaf {
        Leaf::Text(text) => put_text(out, key, text),
        Leaf::Number(n) => put_number(out, key, n),
        Leaf::True => put_true(out, key),
        Leaf::Null => put_null(out, key),
    }
}

/// An object of no members yet.
fn begin(alloc: Global) -> Result<Writer, AllocError>
    ensures { IfOk result (λ out. HasMembers no_members out) }
{
    let mut out = Writer::new(Vec::with_capacity(alloc, ROOM)?);
    out.begin_object()?;
    Ok(out)
}

/// One more member, a text.
fn put_text(out: &mut Writer, key: &str, text: &str) -> Result<(), AllocError>
    ensures { OnOk result ((ms : Members) → HasMembers ms out.old
        → HasMembers (and_member ms key.now (string text.now)) out.new) }
{
    out.key(key)?;
    out.string(text)
}

/// One more member, a number.
fn put_number(out: &mut Writer, key: &str, n: u64) -> Result<(), AllocError>
    ensures { OnOk result ((ms : Members) → HasMembers ms out.old
        → HasMembers (and_member ms key.now (number (unsigned n))) out.new) }
{
    out.key(key)?;
    out.u64(n)
}

fn put_true(out: &mut Writer, key: &str) -> Result<(), AllocError>
    ensures { OnOk result ((ms : Members) → HasMembers ms out.old
        → HasMembers (and_member ms key.now (boolean true)) out.new) }
{
    out.key(key)?;
    out.boolean(true)
}

fn put_null(out: &mut Writer, key: &str) -> Result<(), AllocError>
    ensures { OnOk result ((ms : Members) → HasMembers ms out.old
        → HasMembers (and_member ms key.now null) out.new) }
{
    out.key(key)?;
    out.null()
}

/// The text of the object, whose keys are in byte order.
fn finish(alloc: Global, out: Writer) -> Result<String, AllocError>
    ensures text { IfOk result (λ line. (ms : Members) → HasMembers ms out
        → string_bytes line ≡ compact_text (object ms)) }
    ensures reads_back { IfOk result (λ line. (ms : Members) → HasMembers ms out → all_put ms no_members ≡ ms
        → read (string_bytes line) ≡ Some (object ms)) }
{
    let mut out = out;
    out.end_object()?;
    let bytes = out.into_inner();
    // what a writer wrote is UTF-8
    match from_utf8(bytes.as_slice()) {
        Ok(text) => String::from_str(alloc, text),
        Err(_) => Err(AllocError),
    }
}
