//! The folder of a store.
use sqlite_std_file::{FileFrom, Wary};
use std::alloc::AllocError;
use std::fs::DirBuilder;
use std::marker::Sync;
use std::os::unix::fs::DirBuilderExt;
use std::sync::Wait;
use std::{fs, io};
use up_handed::{EndedUpload, Endings};
use up_log::{LogFault, LogReader, Setup, open_file};
use up_store::{EndedUploads, Folder};

/// A file of a store. A torn write may leave any bytes of it.
pub type StoreFile = FileFrom<Wary>;

/// The folder of a store.
#[derive(Drop)]
pub struct StoreFolder<'a> {
    pub rt: &'a HostRuntime,
    pub path: String,
    pub setup: Setup,
}

impl StoreFolder<'_> {
    /// Makes the folder, unless it exists. Only its owner may look into a new one.
    pub fn make_folder(&self) -> io::Result<()> {
        match DirBuilder::new()
            .mode(0o700)
            .create(self.rt, self.path.as_str())
        {
            Err(error) if error.kind() == io::ErrorKind::AlreadyExists => Ok(()),
            made => made,
        }
    }

    /// The path of a file.
    pub fn path_of(&self, name: &str) -> Result<String, AllocError> {
        let folder = self.path.as_str();
        format!(in self.rt.alloc(); "{folder}/{name}")
    }

    /// The path of the file of this name and generation. In the first generation it has only the name.
    pub fn path_in(&self, name: &str, generation: u64) -> Result<String, AllocError> {
        if generation == 0 {
            return self.path_of(name);
        }
        let folder = self.path.as_str();
        format!(in self.rt.alloc(); "{folder}/{name}.{generation}")
    }

    /// Begins to open the log at this path.
    pub fn open_at(&self, path: &str) -> Result<LogReader<StoreFile>, LogFault> {
        open_file(self.rt, path, Wary, self.setup)
    }

    /// Removes the file of this name and generation, if it exists, and the empty file that locks it. The error is that
    /// memory for the paths ran out.
    fn remove_file(&self, name: &str, generation: u64) -> Result<(), AllocError> {
        let path = self.path_in(name, generation)?;
        let lock = format!(in self.rt.alloc(); "{path}-wal")?;
        // What is left is removed at the next start.
        let _ = fs::remove_file(self.rt, path.as_str());
        let _ = fs::remove_file(self.rt, lock.as_str());
        Ok(())
    }
}

impl Folder<StoreFile> for StoreFolder<'_> {
    fn make(
        &self,
        generation: u64,
    ) -> Result<(LogReader<StoreFile>, LogReader<StoreFile>), LogFault> {
        self.remove(generation);
        let changes = self.open_at(self.path_in("log", generation)?.as_str())?;
        let voids = self.open_at(self.path_in("void", generation)?.as_str())?;
        Ok((changes, voids))
    }

    fn remove(&self, generation: u64) {
        let _ = self.remove_file("log", generation);
        let _ = self.remove_file("void", generation);
    }
}

/// Notes uploads that have ended, for a log that is to leave them out.
pub struct EndedNotes<'a, 'b, R> {
    rt: &'a R,
    ended: &'b EndedUploads,
}

impl<'a, 'b, R> EndedNotes<'a, 'b, R> {
    /// Adds to these uploads.
    pub fn new(rt: &'a R, ended: &'b EndedUploads) -> EndedNotes<'a, 'b, R> {
        EndedNotes { rt, ended }
    }
}

impl<R> Clone for EndedNotes<'_, '_, R> {
    fn clone(&self) -> Result<Self, AllocError> {
        Ok(*self)
    }
}

impl<R> Copy for EndedNotes<'_, '_, R> {}

impl<R: Wait + Sync> Endings for EndedNotes<'_, '_, R> {
    fn note(&self, upload: EndedUpload) {
        self.ended.note(self.rt, upload);
    }
}
