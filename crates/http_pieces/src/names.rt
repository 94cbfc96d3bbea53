//! How the names of fields compare that are passed on.
ghost use Rattle.std.specs.Prelude.{◌≡◌};
ghost use Rattle.http_pieces.specs.Names.{folded, same_name};

/// Whether a server may take the two names for one: they differ at most in the case of ASCII letters, and in `_` for
/// `-`. CGI and its like make one variable of such names (RFC 3875, section 4.1.18).
pub fn same_name(a: &[u8], b: &[u8]) -> bool
    ensures { result ≡ same_name a.now b.now }
{
    if a.len() != b.len() {
        return false;
    }
    for (place, byte) in a.iter().enumerate() {
        if folded(*byte) != folded(b[place]) {
            return false;
        }
    }
    true
}

fn folded(byte: u8) -> u8
    ensures { result ≡ folded byte }
{
    if byte == b'_' {
        b'-'
    } else {
        byte.to_ascii_lowercase()
    }
}
