//! What earlier runs counted of the events of each lane.
ghost use Rattle.std.specs.Prelude.{◌≡◌, IfOk, map};
ghost use Rattle.up_handed.specs.Openings.{counted_of};

use crate::opened::Opened;
use sqlite_disk::Disk;
use std::alloc::{AllocError, Global};

/// What earlier runs counted of the events of a lane.
#[derive(Clone, Copy, PartialEq, Eq)]
pub struct Counted {
    /// The number of events that they handed over, with those that a shorter log leaves out.
    pub count: u64,
    /// The number of these events that a shorter log leaves out.
    pub left_out: u64,
}

impl<D: Disk> Opened<D> {
    /// What earlier runs counted.
    pub fn counted(&self) -> Counted
        ensures { result ≡ counted_of self.now }
    {
        Counted {
            count: self.handed.count(),
            left_out: self.left_out,
        }
    }
}

/// What earlier runs counted of each lane, at the place of its count. The error is that memory ran out.
pub fn counted_each<D: Disk>(
    alloc: Global,
    counts: &[Opened<D>],
) -> Result<Vec<Counted>, AllocError>
    ensures { IfOk result (λ counted. counted.items ≡ map counted_of counts.now) }
{
    let mut counted = Vec::new(alloc);
    for opened in counts {
        counted.push(opened.counted())?;
    }
    Ok(counted)
}
