ghost use Rattle.std.specs.Prelude.{◌≡◌, ◌++◌, OnOk, codes, decimal};
ghost use Rattle.admin.specs.Labels.{escaped, escaped_byte, label_text, seconds_text, zeros_before};

use itoa::Buffer;
use std::alloc::AllocError;

/// Adds a label's value: a backslash, a quotation mark and an LF are escaped.
pub(crate) fn add_escaped(text: &mut Vec<u8>, value: &[u8]) -> Result<(), AllocError>
    ensures { OnOk result (text.new.items ≡ text.old.items ++ escaped value.now) }
{
    for byte in value {
        add_escaped_byte(text, *byte)?;
    }
    Ok(())
}

fn add_escaped_byte(text: &mut Vec<u8>, byte: u8) -> Result<(), AllocError>
    ensures { OnOk result (text.new.items ≡ text.old.items ++ escaped_byte byte) }
{
    match byte {
        b'\\' => text.extend_from_slice(b"\\\\"),
        b'"' => text.extend_from_slice(b"\\\""),
        b'\n' => text.extend_from_slice(b"\\n"),
        _ => text.extend_from_slice(&[byte]),
    }
}

/// Begins a line: the name of what is counted, and its first label.
pub(crate) fn add_first(
    text: &mut Vec<u8>,
    name: &str,
    label: &str,
    value: &[u8],
) -> Result<(), AllocError>
    ensures { OnOk result (text.new.items ≡ text.old.items ++ name.now ++ codes "{" ++ label_text label.now value.now) }
{
    text.extend_from_slice(name.as_bytes())?;
    text.extend_from_slice(b"{")?;
    add_pair(text, label, value)
}

/// Adds a further label.
pub(crate) fn add_label(text: &mut Vec<u8>, label: &str, value: &[u8]) -> Result<(), AllocError>
    ensures { OnOk result (text.new.items ≡ text.old.items ++ codes "," ++ label_text label.now value.now) }
{
    text.extend_from_slice(b",")?;
    add_pair(text, label, value)
}

fn add_pair(text: &mut Vec<u8>, label: &str, value: &[u8]) -> Result<(), AllocError>
    ensures { OnOk result (text.new.items ≡ text.old.items ++ label_text label.now value.now) }
{
    text.extend_from_slice(label.as_bytes())?;
    text.extend_from_slice(b"=\"")?;
    add_escaped(text, value)?;
    text.extend_from_slice(b"\"")
}

/// Ends a line by a whole number.
pub(crate) fn add_number(text: &mut Vec<u8>, number: u64) -> Result<(), AllocError>
    ensures { OnOk result (text.new.items ≡ text.old.items ++ codes "} " ++ decimal number ++ codes "\n") }
{
    text.extend_from_slice(b"} ")?;
    text.extend_from_slice(Buffer::new().format(number).as_bytes())?;
    text.extend_from_slice(b"\n")
}

/// Ends a line by milliseconds, in seconds.
pub(crate) fn add_seconds(text: &mut Vec<u8>, milliseconds: u64) -> Result<(), AllocError>
    ensures { OnOk result (text.new.items ≡ text.old.items ++ codes "} " ++ seconds_text milliseconds ++ codes "\n") }
{
    let rest = milliseconds % 1_000;
    text.extend_from_slice(b"} ")?;
    text.extend_from_slice(Buffer::new().format(milliseconds / 1_000).as_bytes())?;
    text.extend_from_slice(b".")?;
    text.extend_from_slice(zeros_before(rest))?;
    text.extend_from_slice(Buffer::new().format(rest).as_bytes())?;
    text.extend_from_slice(b"\n")
}

/// The zeros that make three digits of a number below 1,000.
fn zeros_before(number: u64) -> &'static [u8]
    ensures { result.now ≡ zeros_before number }
{
    if number < 10 {
        b"00"
    } else if number < 100 {
        b"0"
    } else {
        b""
    }
}
