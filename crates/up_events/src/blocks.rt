//! The blocks of a long list. All blocks of a list have room for the same number of items, and none ever grows.
ghost use Rattle.std.specs.Prelude.{IfOk};
ghost use Rattle.up_events.specs.Blocks.{IsNewBlock};

use crate::fault::NoMemory;
use std::alloc::Global;

/// An empty block with room for `size` items. `NoMemory` if memory runs out.
pub(crate) fn new_block<T>(alloc: Global, size: u64) -> Result<Vec<T>, NoMemory>
    ensures { IfOk result (IsNewBlock size) }
{
    Ok(Vec::with_capacity(alloc, size as usize)?)
}
