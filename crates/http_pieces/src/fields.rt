ghost use Rattle.std.specs.Prelude.{◌≡◌, length, map, All};
ghost use Rattle.std.specs.Iterator.{YieldsFirstBy, item_count};
ghost use Rattle.httparse.specs.Spans.{IsHeaderWithin, header_bytes};

use httparse::spans::HeaderSpan;
use std::marker::Model;

/// The names and values of a head's fields, one by one. Contracts see the list of those that are left.
#[derive(Drop)]
pub struct Fields<'a> {
    bytes: &'a [u8],
    headers: &'a [HeaderSpan],
}

impl<'a> Model for Fields<'a> {
    ghost use Rattle.std.specs.Prelude.{List, length, map, All};
    ghost use Rattle.httparse.specs.Spans.{IsHeaderWithin, header_bytes};
    ghost use Rattle.http_pieces.specs.Fields.{NamedValue};

    ghost Value = { List NamedValue };

    ghost view = { λ f. map (header_bytes f.bytes.now) f.headers.now };

    ghost invariant = { λ f. All (IsHeaderWithin (length f.bytes.now)) f.headers.now };
}

impl<'a> Fields<'a> {
    /// The fields that these places have in the bytes.
    pub(crate) fn new(bytes: &'a [u8], headers: &'a [HeaderSpan]) -> Fields<'a>
        requires { All (IsHeaderWithin (length bytes.now)) headers.now }
        ensures { result ≡ map (header_bytes bytes.now) headers.now }
    {
        Fields { bytes, headers }
    }
}

impl<'a> Iterator for Fields<'a> {
    type Item = (&'a [u8], &'a [u8]);

    ghost next_gives = { YieldsFirstBy (λ field. (field.0.now, field.1.now)) (λ s. s) };

    ghost remaining = { item_count (λ s. s) };

    fn next(&mut self) -> Option<(&'a [u8], &'a [u8])> {
        let (header, others) = self.headers.split_first()?;
        self.headers = others;
        Some((header.name.of(self.bytes), header.value.of(self.bytes)))
    }
}
