ghost use Rattle.std.specs.Prelude.{◌≡◌};
ghost use Rattle.http_pieces.specs.Fields.{same_without_case};

/// Whether two texts differ at most in the case of ASCII letters, as the names of one field may (RFC
/// 9110, section 5.1).
pub fn same_without_case(a: &[u8], b: &[u8]) -> bool
    ensures { result ≡ same_without_case a.now b.now }
{
    a.eq_ignore_ascii_case(b)
}
