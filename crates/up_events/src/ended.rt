//! The ids of terminated uploads.
ghost use Rattle.std.specs.Prelude.{◌≡◌, ◌++◌, ◌∷◌, [], OnOk, OnErr, IfOk};
ghost use Rattle.up_events.specs.Ascending.{has};
ghost use Rattle.up_events.specs.Ended.{AreEmptyBuckets};

use crate::fault::NoMemory;
use crate::id::Id;
use crate::sorted_ids::SortedIds;
use crate::trace::Trace;
use std::alloc::Global;
use std::marker::Model;

/// The number of buckets.
const BUCKETS: u64 = 4_096;

/// A set of ids that only grows. Each id takes the 16 bytes of its number and little more. The id `n` is in the bucket
/// `n` modulo `BUCKETS`, so that inserting an id moves only the ids after it in its bucket.
#[derive(Drop)]
pub struct Ended {
    all: Trace<Id>,
    buckets: Vec<SortedIds>,
}

impl Model for Ended {
    ghost use Rattle.std.specs.Prelude.{ℕ, List};
    ghost use Rattle.up_events.specs.Ended.{AreSpread};

    ghost Value = { List ℕ };

    ghost view = { λ e. e.all.items };

    ghost invariant = { λ e. AreSpread e.all.items e.buckets.items };
}

/// `BUCKETS` empty buckets.
fn empty_buckets(alloc: Global) -> Result<Vec<SortedIds>, NoMemory>
    ensures { IfOk result (λ buckets. AreEmptyBuckets BUCKETS buckets.items) }
{
    let mut buckets = Vec::with_capacity(alloc, BUCKETS as usize)?;
    for _ in 0..BUCKETS {
        buckets.push(SortedIds::new(alloc))?;
    }
    Ok(buckets)
}

impl Ended {
    /// No ids. `NoMemory` if memory for the buckets runs out.
    pub fn empty(alloc: Global) -> Result<Ended, NoMemory>
        ensures { IfOk result (λ ended. ended ≡ []) }
    {
        Ok(Ended {
            all: Trace::new(),
            buckets: empty_buckets(alloc)?,
        })
    }

    /// Whether the id was inserted.
    pub fn contains(&self, id: Id) -> bool
        ensures { result ≡ has self.now id }
    {
        self.buckets[id.modulo(BUCKETS) as usize].contains(id)
    }

    /// Inserts an id. `NoMemory` if memory runs out; the set is then unchanged.
    pub fn insert(&mut self, id: Id) -> Result<(), NoMemory>
        ensures ok { OnOk result (self.new ≡ self.old ++ id ∷ []) }
        ensures err { OnErr result (self.new ≡ self.old) }
    {
        self.buckets[id.modulo(BUCKETS) as usize].insert(id)?;
        self.all.push(&id);
        Ok(())
    }
}
