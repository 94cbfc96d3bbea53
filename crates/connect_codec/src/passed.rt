ghost use Rattle.std.specs.Prelude.{◌≡◌, find, option_map};
ghost use Rattle.connect_codec.specs.Passed.{name_for};
ghost use Rattle.http_pieces.specs.Names.{same_name};

use http_pieces::{Request, Text, same_name};

/// The fields of a call's request that a branch's backend is sent too, in the order of the request. Names that a
/// server may take for one count as one. A field that the request's `Connection` names is not among them (RFC 9110,
/// section 7.6.1).
#[derive(Clone, Copy, Debug)]
pub struct Passed<'a> {
    /// The names that the branch has for them.
    pub names: &'a [Text],
    /// The call's request.
    pub request: &'a Request,
}

impl<'a> Passed<'a> {
    /// The name that the branch has for the request's field of that name, if it is passed on.
    pub(crate) fn name_for(&self, name: &[u8]) -> Option<&'a str>
        ensures { option_map (λ own. own.now) result
            ≡ name_for self.now.names.now self.now.request.now.fields name.now }
    {
        let own = find_same(self.names, name)?;
        if self.request.lists_option(name) {
            return None;
        }
        Some(own.as_str())
    }
}

/// The first of the names that may be one with the other.
fn find_same<'n>(names: &'n [Text], other: &[u8]) -> Option<&'n Text>
    ensures { option_map (λ own. own.now) result ≡ find (λ own. same_name own other.now) names.now }
{
    names
        .iter()
        .find(|own| same_name(own.as_str().as_bytes(), other))
}
