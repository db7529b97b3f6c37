//! The permission to hand over events.
ghost use Rattle.std.specs.Prelude.{◌≡◌};
ghost use Rattle.up_dispatch.specs.Lists.{EachAt};

use crate::restoring::Logs;
use sqlite_disk::Disk;
use std::sync::atomic::{AtomicBool, Ordering};
use up_dispatch::Naming;
use up_handed::{Counted, Permission};
use up_tie::Site;

/// What earlier runs counted of the events of each lane, and whether further events may be handed over: not before the
/// log was read to its end, and the log of each lane has as many events as were counted.
#[derive(Drop)]
pub struct Permit {
    counted: Vec<Counted>,
    is_given: AtomicBool,
}

impl Permit {
    ghost use Rattle.up_store.specs.Permits.{HasCounted, counted_in};

    /// For lanes of which earlier runs counted these events. No further event may be handed over yet.
    pub(crate) fn new(counted: Vec<Counted>) -> Permit
        ensures { counted_in result ≡ counted.items }
    {
        Permit {
            counted,
            is_given: AtomicBool::new(false),
        }
    }

    /// What earlier runs counted of the events of each lane.
    pub(crate) fn counted(&self) -> &[Counted]
        ensures { result.now ≡ counted_in self.now }
    {
        self.counted.as_slice()
    }

    /// Further events may be handed over from now on: in these logs each lane has as many events as were counted.
    pub(crate) fn give<B: Naming, D: Disk, J: Site>(&self, logs: &Logs<D, J>)
        requires counted { EachAt (HasCounted B.lanes B.max_size logs.now.changes.entries)
            (counted_in self.now) }
    {
        // For the prover: the logs are named by what is required alone.
        let _ = logs;
        self.is_given.store(true, Ordering::SeqCst);
    }
}

impl Permission for &Permit {
    // Which logs those were is known where the permission is given.
    ghost given = { λ _. Unit {0} };

    fn is_given(&self) -> bool {
        self.is_given.load(Ordering::SeqCst)
    }
}
