ghost use Rattle.std.specs.Prelude.{◌≡◌, ◌+◌, ◌^◌, [], ◌∷◌, ℕ, List, Option, None, length};
ghost use Rattle.connections.specs.Pumps.{Pumps, Tells, taken_of};
ghost use Rattle.connections.specs.declared.pumping.Heard.{Heard};

use http_pieces::Bytes;
use std::io::Read;
use std::sync::Wait;
use std::time::Clock;

/// What became of a piece of a stream.
#[derive(Clone, Copy, PartialEq, Eq, Debug)]
pub enum Fed {
    /// It was taken, and the stream goes on.
    Go,
    /// It was taken, and no more is.
    Stop,
    /// It was not taken: as many bytes were counted as can be.
    Full,
}

/// What an inlet was given: a piece of the stream and what became of it, or that the peer hung up.
#[derive(Debug, Drop, PartialEq, Eq)]
pub enum Heard {
    Piece(Bytes, Fed),
    HangUp,
}

/// Where a stream goes, piece by piece. It counts the bytes that it took, and may tell all that it was given.
pub trait Inlet {
    // for proofs: what it was given so far, in order; None where it keeps no list
    ghost told: { Self → Option (List Heard) } = { λ _. None };

    // for proofs: how many bytes it took
    ghost took: { Self → ℕ };

    /// Takes the next piece of the stream, unless it answers `Full`.
    fn piece<R: Clock + Wait>(&mut self, rt: &R, bytes: &[u8]) -> Fed
        ensures told { Tells (told self.old) (told self.new) (Heard.Piece bytes.now result ∷ []) }
        ensures took { took self.new ≡ took self.old + length (taken_of bytes.now result) };

    /// Is told that the peer hung up: the stream brings nothing more.
    fn hang_up<R: Clock + Wait>(&mut self, rt: &R)
        ensures told { Tells (told self.old) (told self.new) (Heard.HangUp ∷ []) }
        ensures took { took self.new ≡ took self.old };
}

/// How often a stream is read at most.
const MOST_READS: u64 = 1 << 40;

/// How many bytes one read brings at most.
const READ_LENGTH: usize = 4096;

/// Reads a stream into an inlet: each read that brings bytes is one piece. It ends at the end of the input, at a read
/// that fails, at a piece that the inlet answers by `Stop` or `Full`, and after 2^40 reads; and then it hangs up, once.
///
/// Answers what the inlet said to the last piece; `Go` where the reading ended by itself.
pub fn pump<R: Clock + Wait, S: Read, I: Inlet>(rt: &R, reader: &mut S, inlet: &mut I) -> Fed
    ensures { Pumps (2 ^ 40) (S.remaining reader.old) (S.remaining reader.new) (I.told inlet.old) (I.told inlet.new)
        (I.took inlet.old) (I.took inlet.new) result (Heard.HangUp ∷ []) }
{
    let fed = give_pieces(rt, reader, inlet);
    inlet.hang_up(rt);
    fed
}

/// Gives the inlet what is read, piece by piece.
fn give_pieces<R: Clock + Wait, S: Read, I: Inlet>(rt: &R, reader: &mut S, inlet: &mut I) -> Fed
    ensures { Pumps (2 ^ 40) (S.remaining reader.old) (S.remaining reader.new) (I.told inlet.old) (I.told inlet.new)
        (I.took inlet.old) (I.took inlet.new) result [] }
{
    let mut buffer = [0u8; READ_LENGTH];
    for _read in 0..MOST_READS {
        let length = match reader.read(&mut buffer) {
            Ok(0) | Err(_) => return Fed::Go,
            Ok(length) => length,
        };
        match inlet.piece(rt, &buffer[..length]) {
            Fed::Go => {}
            fed => return fed,
        }
    }
    Fed::Go
}
