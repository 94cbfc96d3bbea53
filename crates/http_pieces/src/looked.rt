ghost use Rattle.std.specs.Prelude.{◌≡◌, ◌≤◌};
ghost use Rattle.http_pieces.specs.Looked.{looked_on, most_looked};

/// Counts of bytes that were looked at stand still here.
const MAX_LOOKED: u64 = 1 << 63;

/// A count of bytes that were looked at, once so many more were.
pub(crate) fn looked_on(looked: u64, more: usize) -> u64
    requires { looked ≤ most_looked }
    ensures { result ≡ looked_on looked more }
{
    if (more as u64) < MAX_LOOKED - looked {
        looked + more as u64
    } else {
        MAX_LOOKED
    }
}
