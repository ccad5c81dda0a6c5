//! Appending to a vector of bytes in two steps: capacity is reserved first, which may fail, and then bytes are
//! appended, which cannot fail. So a caller that runs out of memory has changed nothing.
ghost use Rattle.std.specs.Prelude.{◌≡◌, ◌≤◌, ◌+◌, ◌++◌, length, OnOk, vec_len, vec_capacity};

use std::alloc::AllocError;

/// The smallest capacity that is reserved for a vector that has none, in bytes: enough for most items.
const LEAST_ROOM: usize = 128;

/// Reserves capacity for `more` bytes after those that are there.
pub(crate) fn make_room(bytes: &mut Vec<u8>, more: usize) -> Result<(), AllocError>
    ensures items { bytes.new.items ≡ bytes.old.items }
    ensures room { OnOk result (vec_len bytes.old + more ≤ vec_capacity bytes.new) }
{
    if bytes.capacity() == 0 {
        return bytes.reserve(more.max(LEAST_ROOM));
    }
    bytes.reserve(more)
}

/// Appends bytes for which the capacity is reserved.
pub(crate) fn append(bytes: &mut Vec<u8>, more: &[u8])
    requires { vec_len bytes.old + length more.now ≤ vec_capacity bytes.old }
    ensures items { bytes.new.items ≡ bytes.old.items ++ more.now }
    ensures capacity { vec_capacity bytes.old ≤ vec_capacity bytes.new }
{
    let Ok(()) = bytes.extend_from_slice(more) else {
        unreachable!()
    };
}
