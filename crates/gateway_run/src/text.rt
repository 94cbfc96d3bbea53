ghost use Rattle.std.specs.Prelude.{OnOk, OnErr, flat_map};
ghost use Rattle.std.specs.Io.KnownBytes.{Appends};
ghost use Rattle.gateway_run.specs.RunText.{AppendsSome, connection_text, connections_text, start_line, starts_text, broken_line, broken_text, run_text};

use crate::outcome::Run;
use gateway_model::Start;
use http_pieces::Bytes;
use itoa::Buffer;
use std::io::Write;
use thiserror::Error;

/// The writer failed, or took none of the bytes that were left to write.
#[derive(Clone, Copy, PartialEq, Eq, Debug, Error)]
#[error("the writer failed")]
pub struct WriteFault;

/// Writes a run as text, each line ended by LF: for each connection the line `connection C: N bytes`, its N queued
/// bytes and LF, then a line `start EVENT CONN REQUEST BRANCH` for each start, then a line `broken C` for each
/// broken connection, then the line `end`. At a fault a beginning of the text has been written.
pub fn write_run<W: Write>(run: &Run, writer: &mut W) -> Result<(), WriteFault>
    ensures ok { OnOk result (Appends (W.contents writer.old) (W.contents writer.new) (run_text run.now)) }
    ensures err { OnErr result (AppendsSome (W.contents writer.old) (W.contents writer.new) (run_text run.now)) }
{
    write_connections(&run.queued, writer)?;
    write_starts(&run.starts, writer)?;
    write_broken(&run.broken, writer)?;
    send(b"end\n", writer)
}

fn write_connections<W: Write>(queued: &[Bytes], writer: &mut W) -> Result<(), WriteFault>
    ensures ok { OnOk result (Appends (W.contents writer.old) (W.contents writer.new) (connections_text queued.now)) }
    ensures err { OnErr result (AppendsSome (W.contents writer.old) (W.contents writer.new) (connections_text queued.now)) }
{
    for (conn, bytes) in queued.iter().enumerate() {
        write_connection(conn, bytes.as_slice(), writer)?;
    }
    Ok(())
}

fn write_connection<W: Write>(conn: usize, bytes: &[u8], writer: &mut W) -> Result<(), WriteFault>
    ensures ok { OnOk result (Appends (W.contents writer.old) (W.contents writer.new) (connection_text conn bytes.now)) }
    ensures err { OnErr result (AppendsSome (W.contents writer.old) (W.contents writer.new) (connection_text conn bytes.now)) }
{
    let mut number = Buffer::new();
    let mut count = Buffer::new();
    let parts: [&[u8]; 7] = [
        b"connection ",
        number.format(conn).as_bytes(),
        b": ",
        count.format(bytes.len()).as_bytes(),
        b" bytes\n",
        bytes,
        b"\n",
    ];
    send_all(&parts, writer)
}

fn write_starts<W: Write>(starts: &[Start], writer: &mut W) -> Result<(), WriteFault>
    ensures ok { OnOk result (Appends (W.contents writer.old) (W.contents writer.new) (starts_text starts.now)) }
    ensures err { OnErr result (AppendsSome (W.contents writer.old) (W.contents writer.new) (starts_text starts.now)) }
{
    for start in starts {
        write_start(*start, writer)?;
    }
    Ok(())
}

fn write_start<W: Write>(start: Start, writer: &mut W) -> Result<(), WriteFault>
    ensures ok { OnOk result (Appends (W.contents writer.old) (W.contents writer.new) (start_line start)) }
    ensures err { OnErr result (AppendsSome (W.contents writer.old) (W.contents writer.new) (start_line start)) }
{
    let mut event = Buffer::new();
    let mut conn = Buffer::new();
    let mut request = Buffer::new();
    let mut branch = Buffer::new();
    let line: [&[u8]; 9] = [
        b"start ",
        event.format(start.event).as_bytes(),
        b" ",
        conn.format(start.conn).as_bytes(),
        b" ",
        request.format(start.request).as_bytes(),
        b" ",
        branch.format(start.branch).as_bytes(),
        b"\n",
    ];
    send_all(&line, writer)
}

fn write_broken<W: Write>(broken: &[u64], writer: &mut W) -> Result<(), WriteFault>
    ensures ok { OnOk result (Appends (W.contents writer.old) (W.contents writer.new) (broken_text broken.now)) }
    ensures err { OnErr result (AppendsSome (W.contents writer.old) (W.contents writer.new) (broken_text broken.now)) }
{
    for conn in broken {
        write_break(*conn, writer)?;
    }
    Ok(())
}

fn write_break<W: Write>(conn: u64, writer: &mut W) -> Result<(), WriteFault>
    ensures ok { OnOk result (Appends (W.contents writer.old) (W.contents writer.new) (broken_line conn)) }
    ensures err { OnErr result (AppendsSome (W.contents writer.old) (W.contents writer.new) (broken_line conn)) }
{
    let mut number = Buffer::new();
    let line: [&[u8]; 3] = [b"broken ", number.format(conn).as_bytes(), b"\n"];
    send_all(&line, writer)
}

/// Writes the parts, one after the other.
fn send_all<W: Write>(parts: &[&[u8]], writer: &mut W) -> Result<(), WriteFault>
    ensures ok { OnOk result (Appends (W.contents writer.old) (W.contents writer.new) (flat_map (λ part. part.now) parts.now)) }
    ensures err { OnErr result (AppendsSome (W.contents writer.old) (W.contents writer.new) (flat_map (λ part. part.now) parts.now)) }
{
    for part in parts {
        send(part, writer)?;
    }
    Ok(())
}

/// Writes the bytes, or stops at the first write that fails or takes nothing.
fn send<W: Write>(bytes: &[u8], writer: &mut W) -> Result<(), WriteFault>
    ensures ok { OnOk result (Appends (W.contents writer.old) (W.contents writer.new) bytes.now) }
    ensures err { OnErr result (AppendsSome (W.contents writer.old) (W.contents writer.new) bytes.now) }
{
    let mut done = 0;
    while done < bytes.len() {
        match writer.write(&bytes[done..]) {
            Ok(0) | Err(_) => return Err(WriteFault),
            Ok(taken) => done += taken,
        }
    }
    Ok(())
}
