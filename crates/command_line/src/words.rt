ghost use Rattle.std.specs.Prelude.{IfErr};
ghost use Rattle.command_line.specs.Task.{IsOfWords};

use script_replay::Fault;
use std::env;
use std::io::{self, ErrorKind};
use std::rt::Env;

/// Copies the machine's words, the program's name first. A word that is no UTF-8 is `Fault::Words`, as any other bad
/// word is; want of memory is `Fault::Memory`.
pub fn read_words(rt: &(impl Env + AllocGlobal)) -> Result<Vec<String>, Fault>
    ensures { IfErr result IsOfWords }
{
    let mut words = Vec::new(rt.alloc());
    for word in env::args(rt).map_err(unread)? {
        words.push(word)?;
    }
    Ok(words)
}

fn unread(error: io::Error) -> Fault
    ensures { IsOfWords result }
{
    match error.kind() {
        ErrorKind::OutOfMemory => Fault::Memory,
        _ => Fault::Words,
    }
}
