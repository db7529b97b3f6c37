//! What is printed about a store.
ghost use Rattle.std.specs.Prelude.{IfOk, ⊤};

use crate::notice_lines::milliseconds;
use crate::room::{give_up_room, keep_room};
use crate::store_folder::{StoreFile, StoreFolder};
use sqlite_std_file::Wary;
use std::alloc::AllocError;
use std::os::unix::fs::MetadataExt;
use std::sync::atomic::{AtomicBool, Ordering};
use std::sync::{Mutex, Wait};
use std::time::Clock;
use std::{fmt, fs, io};
use up_history::Chronicle;
use up_log::{LogFault, open_device};
use up_replay::Unreplayed;
use up_store::{LogFile, StoreNotices, Storing, Told, Unrestored};
use up_tie::Batch;

/// The file at a path, as the system knows it.
#[derive(Clone, Copy, PartialEq, Eq)]
struct Known {
    generation: u64,
    device: u64,
    number: u64,
}

/// Why a store can't be read, with the name of the file in front if the reason is about one.
#[derive(Drop)]
struct Reason {
    generation: u64,
    why: Unrestored,
}

impl fmt::Display for Reason {
    fn fmt<W: fmt::Write>(&self, f: &mut fmt::Formatter<W>) -> fmt::Result {
        let name = match self.why {
            Unrestored::Changes(LogFault::Memory)
            | Unrestored::Voids(LogFault::Memory)
            | Unrestored::Entry(Unreplayed::Memory)
            | Unrestored::Lane { .. } => return write!(f, "{}", self.why),
            Unrestored::Voids(_) => "void",
            Unrestored::Changes(_) | Unrestored::Entry(_) | Unrestored::Fewer { .. } => "log",
        };
        match self.generation {
            0 => write!(f, "{name}: {}", self.why),
            generation => write!(f, "{name}.{generation}: {}", self.why),
        }
    }
}

/// Prints lines on standard error about a store, opens the file of its changes, and keeps room for removals. No two of
/// the lines that say whether changes are stored are printed within a second.
#[derive(Drop)]
pub struct StoreLines<'a, R> {
    rt: &'a R,
    /// Whose files the store has.
    host: &'a HostRuntime,
    /// The path of the first log of the changes. The path of a later one ends with its generation.
    log: String,
    /// The path of the file that keeps room.
    spare: String,
    /// Whether the log could not be carried out again, so that nothing is served.
    is_unread: AtomicBool,
    /// The file of the log, once it was looked for.
    known: Mutex<Option<Known>>,
    /// What was printed about whether changes are stored.
    told: Mutex<Told>,
}

impl<'a, R> StoreLines<'a, R> {
    /// No line was printed yet. The store is in this folder.
    pub fn new(rt: &'a R, folder: &StoreFolder<'a>) -> Result<StoreLines<'a, R>, AllocError> {
        Ok(StoreLines {
            rt,
            host: folder.rt,
            log: folder.path_of("log")?,
            spare: folder.path_of("spare")?,
            is_unread: AtomicBool::new(false),
            known: Mutex::new(None),
            told: Mutex::new(Told::new()),
        })
    }

    /// The path of the log of this generation.
    fn path_of(&self, generation: u64) -> Result<String, AllocError> {
        let log = self.log.as_str();
        if generation == 0 {
            return String::from_str(self.host.alloc(), log);
        }
        format!(in self.host.alloc(); "{log}.{generation}")
    }

    /// Whether this is the file that was found when a log of this generation was first looked for.
    fn is_known<W: Wait>(&self, rt: &W, found: Known) -> bool {
        let mut known = self.known.lock(rt);
        match *known {
            Some(first) if first.generation == found.generation => first == found,
            _ => {
                *known = Some(found);
                true
            }
        }
    }

    /// Whether the log could not be carried out again, so that nothing was served. The reason was printed.
    pub fn is_unread(&self) -> bool {
        self.is_unread.load(Ordering::SeqCst)
    }
}

impl<R: Eprint + Clock + Wait> StoreLines<'_, R> {
    /// Takes the news whether changes are stored, if there are any, and prints what is due.
    fn tell(&self, news: Option<Storing>) {
        let mut told = self.told.lock(self.rt);
        if let Some(news) = news {
            told.note(news);
        }
        let _ = match told.due(milliseconds(self.rt)) {
            Some(Storing::Refused(fault)) => {
                eprintln!(self.rt; "up_server: changes can't be stored, and are refused: {fault}")
            }
            Some(Storing::Stored) => eprintln!(self.rt; "up_server: changes are stored again"),
            None => Ok(()),
        };
    }
}

impl<R: Eprint + Clock + Wait> StoreNotices for &StoreLines<'_, R> {
    fn is_restored(&self, entries: u64) {
        let _ = eprintln!(self.rt; "up_server: the store was read: {entries} changes");
    }

    fn is_not_restored(&self, generation: u64, why: Unrestored) {
        self.is_unread.store(true, Ordering::SeqCst);
        let reason = Reason { generation, why };
        let _ = eprintln!(self.rt; "up_server: cannot read the store: {reason}");
    }

    fn fails(&self, fault: LogFault) {
        self.tell(Some(Storing::Refused(fault)));
    }

    fn works(&self) {
        self.tell(Some(Storing::Stored));
    }

    fn stops(&self, fault: LogFault) {
        let _ = eprintln!(self.rt;
            "up_server: no change is made until the server is started again: {fault}"
        );
    }

    fn is_gone(&self) {
        let _ = eprintln!(self.rt;
            "up_server: no change is made until the server is started again: the folder of the store is gone"
        );
    }

    fn is_shorter(&self, before: u64, now: u64) {
        let _ = eprintln!(self.rt; "up_server: the log has {now} bytes instead of {before}");
    }

    fn is_not_shorter(&self, fault: LogFault) {
        let _ = eprintln!(self.rt; "up_server: the log can't be made shorter yet: {fault}");
    }

    fn is_later(&self) {
        self.tell(None);
    }

    fn keeps_room(&self, for_others: bool) -> Result<(), LogFault> {
        match keep_room(self.host, self.spare.as_str(), for_others) {
            Ok(()) => Ok(()),
            Err(error) => Err(LogFault::Disk(error)),
        }
    }

    fn makes_room<K: Chronicle>(&self, _batch: &Batch<K>) -> bool {
        give_up_room(self.host, self.spare.as_str())
    }
}

impl<R> LogFile<StoreFile> for &StoreLines<'_, R> {
    // No contract says which path a file was opened at.
    ghost is_file = { λ _ _. ⊤ };

    fn open_again(&self, generation: u64, failed: Option<StoreFile>) -> Result<StoreFile, LogFault>
        ensures { IfOk result (λ _. ⊤) }
    {
        drop(failed);
        let path = self.path_of(generation)?;
        open_device(self.host, path.as_str(), Wary)
    }

    fn is_there<W: Wait>(&self, rt: &W, generation: u64) -> bool {
        let Ok(path) = self.path_of(generation) else {
            return true;
        };
        match fs::metadata(self.host, path.as_str()) {
            Ok(found) => self.is_known(
                rt,
                Known {
                    generation,
                    device: found.dev(),
                    number: found.ino(),
                },
            ),
            Err(error) => !matches!(
                error.kind(),
                io::ErrorKind::NotFound | io::ErrorKind::NotADirectory
            ),
        }
    }
}
