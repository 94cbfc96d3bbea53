ghost use Rattle.std.specs.Prelude.{◌≡◌, ◌<◌, vec_len, vec_capacity};

use http_pieces::Bytes;
use std::alloc::Global;
use std::sync::Wait;

/// Waits until there is memory for a copy.
pub(crate) fn copy_of<R: Wait>(rt: &R, alloc: Global, bytes: &[u8]) -> Bytes
    ensures { result ≡ bytes.now }
{
    for _ in rt.forever() {
        if let Ok(copy) = Bytes::from_slice(alloc, bytes) {
            return copy;
        }
    }
    unreachable!()
}

/// Waits until there is memory for one more.
pub(crate) fn make_room<R: Wait, T>(rt: &R, list: &mut Vec<T>)
    ensures room { vec_len list.new < vec_capacity list.new }
    ensures same { list.new.items ≡ list.old.items }
{
    for _ in rt.forever() {
        if list.reserve(1).is_ok() {
            return;
        }
    }
    unreachable!()
}
