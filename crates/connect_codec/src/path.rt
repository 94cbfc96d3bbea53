ghost use Rattle.std.specs.Prelude.{◌≡◌};
ghost use Rattle.std.specs.Option.{option_copied};
ghost use Rattle.connect_codec.specs.Path.{path_of, path_and_query, from_slash};

use crate::text::{index_of, until};
use http_pieces::{Request, same_without_case};

/// The path that a request's target names: of a target in origin form (`/..`), or in absolute form
/// (`http://..`), the bytes up to the first `?`. Other targets name none (RFC 9112, section 3.2).
pub fn target_path(request: &Request) -> Option<&[u8]>
    ensures { option_copied result ≡ path_of request.now.target }
{
    path_in(request.target())
}

fn path_in(target: &[u8]) -> Option<&[u8]>
    ensures { option_copied result ≡ path_of target.now }
{
    Some(until(path_and_query(target)?, b'?'))
}

fn path_and_query(target: &[u8]) -> Option<&[u8]>
    ensures { option_copied result ≡ path_and_query target.now }
{
    if target.starts_with(b"/") {
        Some(target)
    } else if target.len() >= 7 && same_without_case(&target[..7], b"http://") {
        from_slash(&target[7..])
    } else {
        None
    }
}

fn from_slash(text: &[u8]) -> Option<&[u8]>
    ensures { option_copied result ≡ from_slash text.now }
{
    let slash = index_of(text, b'/')?;
    Some(&text[slash..])
}
