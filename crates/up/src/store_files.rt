//! The files of a store.
ghost use Rattle.std.specs.Prelude.{◌≡◌, IfOk, vec_len};

use crate::fault::{Fault, Unopened};
use crate::store_folder::{StoreFile, StoreFolder};
use crate::store_missing::refuse_without;
use sqlite_std_file::Wary;
use up_compact::Heads;
use up_handed::{Opened, open_handed};
use up_log::{LogReader, Setup};
use up_store::Current;
use up_words::{Settings, Words};

/// The open files of a store.
#[derive(Drop)]
pub struct StoreFiles {
    /// The settings of the server for which they were opened.
    pub settings: Settings,
    /// Which logs are the current ones.
    pub current: Current<StoreFile>,
    /// The log of the changes.
    pub changes: LogReader<StoreFile>,
    /// The log of the changes that were not made.
    pub voids: LogReader<StoreFile>,
    /// How many events each lane has handed over.
    pub counts: Vec<Opened<StoreFile>>,
    pub ghost one_each: { vec_len counts ≡ settings.lanes },
}

/// A store whose files are open, so that no other server opens them.
#[derive(Drop)]
pub struct OpenStore<'a> {
    pub folder: StoreFolder<'a>,
    pub files: StoreFiles,
}

/// Begins to open the log of this name and generation. The error has its path, and why it can't be opened.
fn open_log(
    folder: &StoreFolder<'_>,
    name: &str,
    generation: u64,
) -> Result<LogReader<StoreFile>, Fault> {
    let path = folder.path_in(name, generation)?;
    match folder.open_at(path.as_str()) {
        Ok(reader) => Ok(reader),
        Err(fault) => Err(Fault::Store {
            path,
            reason: Unopened::Log(fault),
        }),
    }
}

/// Opens the log that says which logs are the current ones. A start makes it before all other files.
fn open_current(folder: &StoreFolder<'_>) -> Result<Current<StoreFile>, Fault> {
    refuse_without(folder, folder.path_of("heads")?)?;
    let reader = open_log(folder, "heads", 0)?;
    match Heads::read(folder.rt.alloc(), reader) {
        Ok((heads, head)) => Ok(Current { heads, head }),
        Err(fault) => Err(Fault::Store {
            path: folder.path_of("heads")?,
            reason: Unopened::Log(fault),
        }),
    }
}

/// Opens the count of a lane, of which the log leaves out `left_out` events. `Fewer` if the count has fewer.
fn open_count(
    folder: &StoreFolder<'_>,
    lane: u64,
    left_out: u64,
) -> Result<Opened<StoreFile>, Fault> {
    let place = folder.path.as_str();
    let path = format!(in folder.rt.alloc(); "{place}/handed.{lane}")?;
    let reason = match open_handed(folder.rt, path.as_str(), Wary) {
        Ok(count) => match Opened::new(count, left_out) {
            Some(opened) => return Ok(opened),
            None => Unopened::Fewer,
        },
        Err(fault) => Unopened::Count(fault),
    };
    Err(Fault::Store { path, reason })
}

/// Opens the counts of all lanes. The log leaves out `left_out` events of them, a number for each lane.
fn open_counts(
    folder: &StoreFolder<'_>,
    lanes: u64,
    left_out: &[u64],
) -> Result<Vec<Opened<StoreFile>>, Fault>
    ensures one_each { IfOk result (λ counts. vec_len counts ≡ lanes) }
{
    let mut counts = Vec::new(folder.rt.alloc());
    for lane in 0..lanes {
        let less = left_out.get(lane as usize).copied().unwrap_or(0);
        counts.push(open_count(folder, lane, less)?)?;
    }
    Ok(counts)
}

/// The logs of a store.
#[derive(Drop)]
struct Logs {
    current: Current<StoreFile>,
    changes: LogReader<StoreFile>,
    voids: LogReader<StoreFile>,
}

/// Opens the logs in this folder. A log that a switch to a shorter one has left may be there too.
fn open_logs(folder: &StoreFolder<'_>) -> Result<Logs, Fault> {
    let current = open_current(folder)?;
    let generation = current.head.generation;
    refuse_without(folder, folder.path_in("log", generation)?)?;
    let changes = open_log(folder, "log", generation)?;
    let voids = open_log(folder, "void", generation)?;
    Ok(Logs {
        current,
        changes,
        voids,
    })
}

/// Opens the files in this folder, which is made if it does not exist.
fn open_files(folder: &StoreFolder<'_>, settings: Settings) -> Result<StoreFiles, Fault> {
    if let Err(error) = folder.make_folder() {
        return Err(Fault::Store {
            path: String::from_str(folder.rt.alloc(), folder.path.as_str())?,
            reason: Unopened::Folder(error),
        });
    }
    let Logs {
        current,
        changes,
        voids,
    } = open_logs(folder)?;
    let counts = open_counts(folder, settings.lanes, current.head.left_out.as_slice())?;
    Ok(StoreFiles {
        settings,
        current,
        changes,
        voids,
        counts,
    })
}

/// Opens the store that the arguments ask for. `None` if they ask for none.
pub fn store_of<'a>(rt: &'a HostRuntime, words: &Words) -> Result<Option<OpenStore<'a>>, Fault> {
    let Some(serving) = &words.serve else {
        return Ok(None);
    };
    let Some(path) = &serving.store else {
        return Ok(None);
    };
    let folder = StoreFolder {
        rt,
        path: String::from_str(rt.alloc(), path.as_str())?,
        setup: Setup {
            lanes: words.settings.lanes,
            max_size: words.settings.max_size,
        },
    };
    let files = open_files(&folder, words.settings)?;
    Ok(Some(OpenStore { folder, files }))
}
