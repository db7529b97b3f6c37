//! Room for lists that only grow.
ghost use Rattle.std.specs.Prelude.{◌≡◌, ◌+◌, ◌≤◌, OnOk, vec_len, vec_capacity};

use std::alloc::AllocError;

/// The smallest number of places by which a list grows.
const LEAST_STEP: usize = 1_024;

/// Makes room for `count` more items. A full list grows by an eighth, and by at least `least_step` places. So a long
/// list never asks for much more memory than it uses, as a list that doubles does.
pub(crate) fn make_room_by<T>(
    list: &mut Vec<T>,
    count: usize,
    least_step: usize,
) -> Result<(), AllocError>
    ensures items { list.new.items ≡ list.old.items }
    ensures len { vec_len list.new ≡ vec_len list.old }
    ensures ok { OnOk result (vec_len list.new + count ≤ vec_capacity list.new) }
{
    let spare = list.capacity() - list.len();
    let places = if count <= spare {
        count
    } else {
        count.max(list.len() / 8).max(least_step)
    };
    list.reserve_exact(places)
}

/// Makes room for `count` more items. A full list grows by an eighth, and by at least 1,024 places. `AllocError` if
/// memory runs out.
pub fn make_room<T>(list: &mut Vec<T>, count: usize) -> Result<(), AllocError>
    ensures items { list.new.items ≡ list.old.items }
    ensures len { vec_len list.new ≡ vec_len list.old }
    ensures ok { OnOk result (vec_len list.new + count ≤ vec_capacity list.new) }
{
    make_room_by(list, count, LEAST_STEP)
}
