//! Room for bytes that arrive.
ghost use Rattle.std.specs.Prelude.{◌≡◌, ◌*◌, ◌<◌, ◌≤◌, true, max, min, vec_len, vec_capacity};

/// A buffer of at most this many bytes grows by a copy of its bytes into new memory. A larger buffer grows in place, or
/// its pages are moved. The C library would copy a small buffer too, but while it holds the lock that all threads
/// share.
const MAX_COPIED: usize = 1 << 19;

/// Makes room for at least one byte in a buffer that may grow to `most` bytes. A buffer that is nearly full doubles, or
/// gets `first` bytes of room at first, but no more than `most`. Returns whether there is room.
pub(crate) fn make_room(buffer: &mut Vec<u8>, most: u64, first: usize) -> bool
    requires some { 0 < first }
    requires within { vec_len buffer.old < most }
    ensures items { buffer.new.items ≡ buffer.old.items }
    ensures room { result ≡ true → vec_len buffer.new < vec_capacity buffer.new }
    ensures bounded { vec_capacity buffer.new
        ≤ max (vec_capacity buffer.old) (min most (max first (2 * vec_len buffer.old))) }
{
    let len = buffer.len();
    if buffer.capacity() - len > len / 4 {
        return true;
    }
    let growth = first.saturating_sub(len).max(len);
    let growth = (growth as u64).min(most - len as u64) as usize;
    if len > MAX_COPIED {
        return buffer.reserve_exact(growth).is_ok();
    }
    move_to_room(buffer, len + growth)
}

/// Moves the bytes to new memory with room for `room` bytes. Returns whether there was memory for it.
fn move_to_room(buffer: &mut Vec<u8>, room: usize) -> bool
    requires within { vec_len buffer.old < room }
    ensures items { buffer.new.items ≡ buffer.old.items }
    ensures room { result ≡ true → vec_len buffer.new < vec_capacity buffer.new }
    ensures bounded { vec_capacity buffer.new ≤ max (vec_capacity buffer.old) room }
{
    let mut larger = Vec::new(*buffer.allocator());
    if larger.reserve_exact(room).is_err() {
        return false;
    }
    let given = larger.capacity();
    // std does not promise that filling a buffer takes no more room than there is.
    if larger.extend_from_slice(buffer).is_err() || larger.capacity() > given {
        return false;
    }
    *buffer = larger;
    true
}
