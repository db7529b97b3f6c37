//! The files of a store, and what is in them.
use super::running::Boxed;
use crate::logs::reader_of;
use sqlite_disk::{Disk, Memory};
use std::alloc::{AllocError, Global};
use up_history::Chronicle;
use up_log::{Log, LogFault};
use up_places::NoFiles;
use up_store::Voids;
use up_tie::Site;

/// The number of entries of the log in a file.
pub fn count_in(alloc: Global, file: Memory) -> Result<(u64, Memory), LogFault> {
    let mut reader = reader_of(alloc, file)?;
    let mut count: u64 = 0;
    for _ in 0..10_000u64 {
        let Some(entries) = reader.next_batch(alloc, &NoFiles)? else {
            break;
        };
        count = count.saturating_add(entries.len() as u64);
    }
    match reader.finish() {
        Ok(log) => Ok((count, log.into_device())),
        Err(refused) => Err(refused.fault),
    }
}

#[derive(Drop)]
struct OpenFiles<D: Disk> {
    changes: Log<D>,
    voids: Voids<D>,
    /// The number of entries of the log of the changes.
    count: u64,
}

/// The open files of a store. They are in a box, since the proof of a function takes longer if it has large values.
#[derive(Drop)]
pub struct Files<D: Disk> {
    open: Box<OpenFiles<D>, Global>,
}

impl<D: Disk> Files<D> {
    /// The number of entries of the log of the changes.
    pub fn count(&self) -> u64 {
        self.open.count
    }

    /// Notes that an entry was not carried out.
    pub fn add_void(&mut self, place: u64) -> Result<(), LogFault>
    where
        D: Drop,
    {
        self.open.voids.add(place)
    }

    /// The disks on which the files are: that of the changes, and that of the voids.
    pub fn into_disks(self) -> (D, D)
    where
        D: Drop,
    {
        let OpenFiles { changes, voids, .. } = Box::into_inner(self.open);
        (changes.into_device(), voids.into_device())
    }
}

/// The files of a store. `None` if it isn't open.
pub fn files_of<D: Disk, J: Site, K: Chronicle>(
    alloc: Global,
    store: Boxed<'_, D, J, K>,
) -> Result<Option<Files<D>>, AllocError>
where
    D: Drop,
{
    let Some(logs) = Box::into_inner(store).into_logs() else {
        return Ok(None);
    };
    let open = OpenFiles {
        changes: logs.changes.into_log(),
        voids: logs.voids,
        count: logs.count,
    };
    Ok(Some(Files {
        open: Box::new(alloc, open)?,
    }))
}
