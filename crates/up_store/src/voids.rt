//! The entries of a log that were not carried out.
use sqlite_disk::Disk;
use std::alloc::{AllocError, Global};
use std::collections::BTreeSet;
use up_events::Id;
use up_log::{Entry, Log, LogFault, LogReader, Spelled};
use up_places::NoFiles;

/// The places of the entries of a log that are on the disk and were not carried out, because memory ran out or the
/// board was closed. They have a log of their own, where each is an entry that asks for nothing and has the place as
/// its id. The memory to add one is kept ready, since it is added when memory has run out.
#[derive(Drop)]
pub struct Voids<D: Disk> {
    log: Log<D>,
    spare: Spare,
}

/// The memory with which a place is added when memory has run out.
#[derive(Drop)]
struct Spare {
    /// A batch of one entry, which the next one takes the place of.
    batch: Vec<Spelled>,
    /// The memory in which `Log::append` puts a batch together.
    room: Vec<u8>,
}

impl Spare {
    fn new(alloc: Global) -> Result<Spare, AllocError> {
        let mut batch = Vec::with_capacity(alloc, 1)?;
        batch.push(Spelled::new(alloc, &void_of(0))?)?;
        Ok(Spare {
            batch,
            room: Vec::with_capacity(alloc, ROOM)?,
        })
    }
}

/// How many bytes of `room` a batch of one void takes, rounded up.
const ROOM: usize = 64;

/// The entry for this place.
fn void_of(place: u64) -> Entry {
    Entry::nothing(Id::new(u128::from(place)))
}

/// Adds the places of these entries.
fn take_places(places: &mut BTreeSet<u64>, entries: &[Entry]) -> Result<(), AllocError> {
    for entry in entries {
        if let Ok(place) = u64::try_from(entry.id.number()) {
            places.insert(place)?;
        }
    }
    Ok(())
}

/// Adds the places of the entries that a reader has yet to read.
fn read_places<D: Disk>(
    alloc: Global,
    reader: &mut LogReader<D>,
    places: &mut BTreeSet<u64>,
) -> Result<(), LogFault> {
    for _ in 0..u64::MAX {
        let Some(entries) = reader.next_batch(alloc, &NoFiles)? else {
            break;
        };
        take_places(places, entries.as_slice())?;
    }
    Ok(())
}

/// The log of a reader that has read all of it. The error says why it can't be written to.
pub(crate) fn finished<D: Disk>(reader: LogReader<D>) -> Result<Log<D>, LogFault>
where
    D: Drop,
{
    match reader.finish() {
        Ok(log) => Ok(log),
        Err(refused) => Err(refused.fault),
    }
}

impl<D: Disk> Voids<D> {
    /// Reads the log of the voids to its end, and returns their places too. Takes the memory with which a place is
    /// added later. The error says why the log can't be read, or that memory ran out.
    pub fn read(alloc: Global, reader: LogReader<D>) -> Result<(Voids<D>, BTreeSet<u64>), LogFault>
    where
        D: Drop,
    {
        let spare = Spare::new(alloc)?;
        let mut reader = reader;
        let mut places = BTreeSet::new(alloc);
        read_places(alloc, &mut reader, &mut places)?;
        let log = finished(reader)?;
        Ok((Voids { log, spare }, places))
    }

    /// The places of all voids. The error says why the log can't be read, or that memory ran out.
    pub(crate) fn places(&mut self, alloc: Global) -> Result<BTreeSet<u64>, LogFault> {
        let mut places = BTreeSet::new(alloc);
        let mut place = Log::<D>::first_place();
        for _ in 0..u64::MAX {
            let Some((entries, next)) = self.log.batch_at(alloc, place, &NoFiles)? else {
                break;
            };
            take_places(&mut places, entries.as_slice())?;
            place = next;
        }
        Ok(places)
    }

    /// The file. These voids are then used up.
    pub fn into_device(self) -> D {
        self.log.into_device()
    }

    /// Adds a place, and returns once it is on the disk. Takes no memory: the batch takes as much as the one before.
    /// The error is that of the write.
    pub fn add(&mut self, place: u64) -> Result<(), LogFault> {
        let Some(before) = self.spare.batch.pop() else {
            return Err(LogFault::Memory);
        };
        let Spare { batch, room } = &mut self.spare;
        batch.push(before.again(&void_of(place))?)?;
        self.log.append(room, batch)
    }
}
