//! A shorter log, while it is being written.
use crate::folder::Folder;
use crate::store::Store;
use crate::voids::{Voids, finished};
use sqlite_disk::Disk;
use std::alloc::{AllocError, Global};
use std::collections::BTreeSet;
use std::sync::Wait;
use up_compact::{Head, LeftOut, Progress, Survey, add_staying};
use up_events::Id;
use up_handed::EndedUpload;
use up_history::Chronicle;
use up_log::{Log, LogFault, LogReader};
use up_message::Sequence;
use up_places::NoFiles;
use up_tie::Site;

/// Why a log was not replaced by a shorter one.
#[derive(Clone, Copy)]
pub(crate) enum Kept {
    /// The new one would not be short enough.
    Long,
    /// The disk is full, and the room that is left is for removals.
    Full,
    /// The new one could not be written.
    Fault(LogFault),
    /// It is not known which of the two the next start finds, so no change may be made until then.
    Unknown(LogFault),
}

impl From<LogFault> for Kept {
    fn from(fault: LogFault) -> Self {
        Kept::Fault(fault)
    }
}

impl From<AllocError> for Kept {
    fn from(_: AllocError) -> Self {
        Kept::Fault(LogFault::Memory)
    }
}

/// A shorter log, and how far the longer log was read for it.
#[derive(Drop)]
pub(crate) struct Shorter<D: Disk> {
    pub(crate) changes: Log<D>,
    pub(crate) voids: Voids<D>,
    pub(crate) left_out: LeftOut,
    pub(crate) progress: Progress,
    /// How many bytes it may have: half as many as the longer log had.
    most: usize,
}

/// The ids of uploads.
fn ids_of(alloc: Global, uploads: &[EndedUpload]) -> Result<BTreeSet<Id>, AllocError> {
    let mut ids = BTreeSet::new(alloc);
    for upload in uploads {
        ids.insert(upload.id)?;
    }
    Ok(ids)
}

/// Opens a new log, which must have nothing to read. `Foreign` if it has a batch.
fn emptied<D: Disk>(alloc: Global, reader: LogReader<D>) -> Result<Log<D>, LogFault>
where
    D: Drop,
{
    let mut reader = reader;
    if reader.next_batch(alloc, &NoFiles)?.is_some() {
        return Err(LogFault::Foreign);
    }
    finished(reader)
}

/// Sees all entries of the log of a store.
fn see_all<D: Disk, N, J: Site, K: Chronicle, R: Wait>(
    rt: &R,
    alloc: Global,
    store: &Store<D, N, J, K>,
    survey: &mut Survey,
) -> Result<(), LogFault> {
    let mut place = Log::<D>::first_place();
    let end = store.size(rt);
    for _ in 0..u64::MAX {
        if place >= end {
            break;
        }
        let Some((entries, next)) = store.batch_at(rt, alloc, place)? else {
            break;
        };
        survey.see(alloc, entries.as_slice())?;
        place = next;
    }
    Ok(())
}

/// The uploads that a shorter log of this store leaves out completely.
fn survey<D: Disk, N, J: Site, K: Chronicle, R: Wait>(
    rt: &R,
    alloc: Global,
    store: &Store<D, N, J, K>,
    ended: &[EndedUpload],
) -> Result<BTreeSet<Id>, LogFault> {
    let mut survey = Survey::new(alloc);
    see_all(rt, alloc, store, &mut survey)?;
    Ok(survey.left_out(ids_of(alloc, ended)?))
}

/// How many events of each lane the next log leaves out: those that the log with this head leaves out, and those of the
/// uploads that are left out now.
pub(crate) fn left_out_events(
    alloc: Global,
    head: &Head,
    lanes: u64,
    ended: &[EndedUpload],
    left_out: &BTreeSet<Id>,
) -> Result<Sequence<u64>, AllocError> {
    let mut counts = Vec::new(alloc);
    let before = head.left_out.as_slice();
    for lane in 0..lanes {
        counts.push(before.get(lane as usize).copied().unwrap_or(0))?;
    }
    for upload in ended {
        if lanes == 0 || !left_out.contains(&upload.id) {
            continue;
        }
        if let Some(count) = counts.get_mut(upload.id.lane(lanes) as usize) {
            *count = count.saturating_add(upload.events);
        }
    }
    Ok(Sequence::from_vec(counts))
}

impl<D: Disk> Shorter<D>
where
    D: Drop,
{
    /// Makes an empty log that is to replace the log of a store. It leaves out those of these uploads of which nothing
    /// has to stay. `Long` if there are none.
    pub(crate) fn begin<N, F: Folder<D>, J: Site, K: Chronicle, R: Wait>(
        rt: &R,
        alloc: Global,
        store: &Store<D, N, J, K>,
        folder: &F,
        generation: u64,
        ended: &[EndedUpload],
    ) -> Result<Shorter<D>, Kept> {
        let uploads = survey(rt, alloc, store, ended)?;
        if uploads.is_empty() {
            return Err(Kept::Long);
        }
        let (changes, voids) = folder.make(generation)?;
        let (voids, _) = Voids::read(alloc, voids)?;
        Ok(Shorter {
            changes: emptied(alloc, changes)?,
            voids,
            left_out: LeftOut {
                voids: BTreeSet::new(alloc),
                uploads,
            },
            progress: Progress::start::<D>(),
            most: store.size(rt) / 2,
        })
    }

    /// Adds the next batch of the store's log, if all of its entries come before the place `end`. Returns whether they
    /// do. `Long` if the new log has become too long, and `Full` if only removals are drawn.
    fn add_next<N, J: Site, K: Chronicle, R: Wait>(
        &mut self,
        rt: &R,
        alloc: Global,
        store: &Store<D, N, J, K>,
        end: u64,
    ) -> Result<bool, Kept> {
        if store.is_for_removals(rt) {
            return Err(Kept::Full);
        }
        let Some((entries, next)) = store.batch_at(rt, alloc, self.progress.place)? else {
            return Ok(false);
        };
        let count = self.progress.count.saturating_add(entries.len() as u64);
        if count > end {
            return Ok(false);
        }
        self.progress = add_staying(
            alloc,
            &mut self.changes,
            &self.left_out,
            self.progress,
            entries.as_slice(),
            next,
        )?;
        if self.changes.end_place() > self.most {
            return Err(Kept::Long);
        }
        Ok(true)
    }

    /// Adds the batches of the store's log whose entries have all had their turn by now. Returns how many entries these
    /// are.
    pub(crate) fn add_settled<N, J: Site, K: Chronicle, R: Wait>(
        &mut self,
        rt: &R,
        alloc: Global,
        store: &Store<D, N, J, K>,
    ) -> Result<u64, Kept> {
        let before = self.progress.count;
        let end = store.place(rt);
        self.left_out.voids = store.void_places(rt, alloc)?;
        for _ in 0..u64::MAX {
            if !self.add_next(rt, alloc, store, end)? {
                break;
            }
        }
        Ok(self.progress.count.saturating_sub(before))
    }
}
