ghost use Rattle.std.specs.Prelude.{◌≡◌, ◌+◌, ◌-◌, ◌≤◌, ◌<◌, ◌++◌, [], Some, if◌then◌else◌, nat_lt, length, take, drop, vec_len, vec_capacity};
ghost use Rattle.http_pieces.specs.Chunks.{DecodesTo, IsOpen, cut_on, first_place, most_of, part_end};
ghost use Rattle.http_pieces.specs.declared.chunk_parts.ChunkFault.TheVariants as fault;
ghost use Rattle.http_pieces.specs.declared.chunk_parts.Decoded.TheVariants as decoded;

use crate::chunk_parts::{ChunkFault, Decoded, Next, Part, Place, is_too_long, next_of, part_end};

/// How far a body in chunks is decoded.
#[derive(Drop)]
pub(crate) struct Chunks {
    /// The data of the chunks that are whole, and behind it the bytes of the part that is not.
    pub(crate) body: Vec<u8>,
    /// How many bytes that data has.
    pub(crate) whole: usize,
    /// What the part is.
    pub(crate) place: Place,
}

impl Chunks {
    /// None of a body, which is decoded into this vector.
    pub(crate) fn new(body: Vec<u8>) -> Chunks
        requires { body.items ≡ [] }
        ensures body { result.body ≡ body }
        ensures empty { result.body.items ≡ [] }
        ensures start { (result.whole ≡ 0) × (result.place ≡ first_place) }
    {
        Chunks {
            body,
            whole: 0,
            place: Place {
                part: Part::Size,
                room: 65_536,
                spare: 8192,
            },
        }
    }

    /// Decodes bytes up to the end of the body, and answers how many were taken. Nothing is read
    /// behind a fault.
    pub(crate) fn push(&mut self, bytes: &[u8]) -> (usize, Decoded)
        requires room { vec_len self.old.body + length bytes.now ≤ vec_capacity self.old.body }
        requires within { self.old.whole ≤ length self.old.body.items }
        requires begun { IsOpen self.old.place (drop self.old.whole self.old.body.items) }
        ensures within { result.0 ≤ length bytes.now }
        ensures moves { 0 < length bytes.now → 0 < result.0 }
        ensures all { result.1 ≡ decoded.More → result.0 ≡ length bytes.now }
        ensures decodes { DecodesTo (cut_on self.old.body.items self.old.whole self.old.place) (take result.0 bytes.now)
            self.new.body.items self.new.whole self.new.place result.1 }
    {
        let mut taken = 0;
        while taken < bytes.len() {
            let (count, decoded) = self.take_part(&bytes[taken..]);
            taken += count;
            match decoded {
                Decoded::More => {}
                ended => return (taken, ended),
            }
        }
        (taken, Decoded::More)
    }

    /// Takes bytes up to the end of the part.
    fn take_part(&mut self, bytes: &[u8]) -> (usize, Decoded)
        requires room { vec_len self.old.body + length bytes.now ≤ vec_capacity self.old.body }
        requires within { self.old.whole ≤ length self.old.body.items }
        requires begun { IsOpen self.old.place (drop self.old.whole self.old.body.items) }
        ensures within { result.0 ≤ length bytes.now }
        ensures moves { 0 < length bytes.now → 0 < result.0 }
        ensures room { vec_len self.new.body + (length bytes.now - result.0) ≤ vec_capacity self.new.body }
        ensures decodes { DecodesTo (cut_on self.old.body.items self.old.whole self.old.place) (take result.0 bytes.now)
            self.new.body.items self.new.whole self.new.place result.1 }
    {
        match part_end(self.place, &self.body[self.whole..], bytes) {
            None => {
                add(&mut self.body, bytes);
                (bytes.len(), self.look_on())
            }
            Some(count) => {
                add(&mut self.body, &bytes[..count]);
                (count, self.end_part())
            }
        }
    }

    /// Looks whether the part can end yet.
    fn look_on(&self) -> Decoded
        requires { self.now.whole ≤ length self.now.body.items }
        ensures { result ≡ (if nat_lt (length (drop self.now.whole self.now.body.items))
            (most_of self.now.place.part self.now.place.spare) then decoded.More else decoded.Fault fault.Malformed) }
    {
        if is_too_long(self.place, &self.body[self.whole..]) {
            Decoded::Fault(ChunkFault::Malformed)
        } else {
            Decoded::More
        }
    }

    /// Goes on behind the part, which has ended.
    fn end_part(&mut self) -> Decoded
        requires within { self.old.whole ≤ length self.old.body.items }
        requires ended { part_end self.old.place.part self.old.place.spare (drop self.old.whole self.old.body.items)
            ≡ Some (length (drop self.old.whole self.old.body.items)) }
        ensures fewer { vec_len self.new.body ≤ vec_len self.old.body }
        ensures capacity { vec_capacity self.new.body ≡ vec_capacity self.old.body }
        ensures decodes { DecodesTo (cut_on self.old.body.items self.old.whole self.old.place) []
            self.new.body.items self.new.whole self.new.place result }
    {
        match next_of(self.place, &self.body[self.whole..]) {
            Next::Fault(fault) => Decoded::Fault(fault),
            Next::End => {
                self.body.truncate(self.whole);
                Decoded::Whole
            }
            Next::Goes(place, data) => {
                self.whole += data as usize;
                self.body.truncate(self.whole);
                self.place = place;
                Decoded::More
            }
        }
    }
}

/// Adds bytes for which there is room.
fn add(list: &mut Vec<u8>, bytes: &[u8])
    requires { vec_len list.old + length bytes.now ≤ vec_capacity list.old }
    ensures items { list.new.items ≡ list.old.items ++ bytes.now }
    ensures len { vec_len list.new ≡ vec_len list.old + length bytes.now }
    ensures capacity { vec_capacity list.old ≤ vec_capacity list.new }
{
    match list.extend_from_slice(bytes) {
        Ok(()) => {}
        Err(_) => unreachable!(),
    }
}
