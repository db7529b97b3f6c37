//! The folder with the data files of a store.
use crate::files::{BodyFault, BodyFiles};
use crate::head::Head;
use crate::host::{BodyFile, make_body_file, open_body_file};
use std::fs::DirBuilder;
use std::os::unix::fs::DirBuilderExt;
use std::sync::atomic::{AtomicU64, Ordering};
use std::{fs, io};

/// Is told why bodies were not written or read.
pub trait BodyNotices {
    /// A body was not written, or a block of it not read.
    fn tell(&self, fault: &BodyFault);
}

/// The folder `bodies` in the folder of a store, with its data files. The name of a file is its number.
#[derive(Drop)]
pub struct BodyFolder<'a, N> {
    rt: &'a HostRuntime,
    path: String,
    store: [u8; 16],
    /// The generation of the store's log.
    generation: AtomicU64,
    /// The number of the next file that is made.
    next: AtomicU64,
    notices: N,
}

/// Makes the folder at this path, unless it exists, and has its name in the folder around it on the disk. Only its owner
/// may look into a new one.
fn make_folder(rt: &HostRuntime, around: &str, path: &str) -> io::Result<()> {
    match DirBuilder::new().mode(0o700).create(rt, path) {
        Ok(()) => fs::File::open(rt, around)?.sync_all(),
        Err(error) if error.kind() == io::ErrorKind::AlreadyExists => Ok(()),
        Err(error) => Err(error),
    }
}

/// A number above those of all files in this folder.
fn number_above(rt: &HostRuntime, path: &str) -> io::Result<u64> {
    let mut next: u64 = 0;
    for entry in fs::read_dir(rt, path)? {
        let entry = match entry {
            Ok(entry) => entry,
            // The name is not UTF-8, so it is no number.
            Err(error) if error.kind() == io::ErrorKind::InvalidFilename => continue,
            Err(error) => return Err(error),
        };
        if let Ok(number) = entry.file_name().parse::<u64>() {
            next = next.max(number.saturating_add(1));
        }
    }
    Ok(next)
}

impl<'a, N: Drop> BodyFolder<'a, N> {
    /// Opens the folder in that of a store, which has this name and a log of this generation. It is made unless it exists.
    /// Files that are made get numbers above those of all files that are there.
    pub fn open(
        rt: &'a HostRuntime,
        around: &str,
        store: [u8; 16],
        generation: u64,
        notices: N,
    ) -> io::Result<BodyFolder<'a, N>> {
        let path = format!(in rt.alloc(); "{around}/bodies")?;
        make_folder(rt, around, path.as_str())?;
        let next = number_above(rt, path.as_str())?;
        Ok(BodyFolder {
            rt,
            path,
            store,
            generation: AtomicU64::new(generation),
            next: AtomicU64::new(next),
            notices,
        })
    }

    /// The path of the file of this number.
    fn path_of(&self, number: u64) -> io::Result<String> {
        let folder = self.path.as_str();
        Ok(format!(in self.rt.alloc(); "{folder}/{number}")?)
    }

    /// From now on the store's log has this generation.
    pub fn set_generation(&self, generation: u64) {
        self.generation.store(generation, Ordering::SeqCst);
    }

    /// The number of bytes of the file of this number.
    pub fn size_of(&self, number: u64) -> io::Result<u64> {
        let path = self.path_of(number)?;
        Ok(fs::metadata(self.rt, path.as_str())?.len())
    }

    /// Removes the file of this number.
    pub fn remove(&self, number: u64) -> io::Result<()> {
        let path = self.path_of(number)?;
        fs::remove_file(self.rt, path.as_str())
    }
}

impl<N: BodyNotices + Drop> BodyFiles<BodyFile> for BodyFolder<'_, N> {
    fn make(&self) -> io::Result<(u64, BodyFile)> {
        let number = self.next.fetch_add(1, Ordering::SeqCst);
        let path = self.path_of(number)?;
        let file = make_body_file(self.rt, self.path.as_str(), path.as_str())?;
        Ok((number, file))
    }

    fn open(&self, number: u64) -> io::Result<BodyFile> {
        open_body_file(self.rt, self.path_of(number)?.as_str())
    }

    fn head(&self, number: u64) -> Head {
        Head {
            store: self.store,
            generation: self.generation.load(Ordering::SeqCst),
            number,
        }
    }

    fn tell(&self, fault: &BodyFault) {
        self.notices.tell(fault);
    }
}
