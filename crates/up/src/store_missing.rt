//! Stores of which a file is missing that was made before others.
use crate::fault::{Fault, Unopened};
use crate::store_folder::StoreFolder;
use std::{fs, io};

/// Whether a file of this name and size is one of the logs or counts that a start makes after `heads`. A file that
/// locks another one, and the count of a lane that has handed over nothing, are empty, and may be left of anything.
fn is_later(name: &str, size: u64) -> bool {
    let is_count = name.starts_with("handed.");
    let is_log = name.starts_with("log") || name.starts_with("void");
    (is_log || is_count) && (size > 0 || !(is_count || name.ends_with("-wal")))
}

/// The number of bytes of the file at this path. `None` if there is none.
fn size_of(rt: &HostRuntime, path: &str) -> io::Result<Option<u64>> {
    match fs::metadata(rt, path) {
        Ok(found) => Ok(Some(found.len())),
        Err(error) if error.kind() == io::ErrorKind::NotFound => Ok(None),
        Err(error) => Err(error),
    }
}

/// What is behind the last slash of a path.
fn name_of(path: &str) -> &str {
    match path.rsplit_once('/') {
        Some((_, name)) => name,
        None => path,
    }
}

/// The first by name of the logs and counts in a folder, besides the file at this path.
fn first_beside(folder: &StoreFolder<'_>, path: &str) -> io::Result<Option<String>> {
    let mut first: Option<String> = None;
    for entry in fs::read_dir(folder.rt, folder.path.as_str())? {
        let entry = match entry {
            Ok(entry) => entry,
            // The name is not UTF-8, so it is no name of a store's file.
            Err(error) if error.kind() == io::ErrorKind::InvalidFilename => continue,
            Err(error) => return Err(error),
        };
        let name = entry.file_name();
        let Some(size) = size_of(folder.rt, entry.path().as_str())? else {
            continue;
        };
        let comes_first = match &first {
            Some(other) => name < other.as_str(),
            None => true,
        };
        if comes_first && name != name_of(path) && is_later(name, size) {
            first = Some(String::from_str(folder.rt.alloc(), name)?);
        }
    }
    Ok(first)
}

/// The first by name of the logs and counts in a folder, if the file at this path isn't there or is empty.
fn left_without(folder: &StoreFolder<'_>, path: &str) -> io::Result<Option<String>> {
    // Whoever makes a store at the same time makes this file before those. So it is looked at after them.
    let beside = first_beside(folder, path)?;
    match size_of(folder.rt, path)? {
        Some(size) if size > 0 => Ok(None),
        _ => Ok(beside),
    }
}

/// Refuses a store of which the file at this path isn't there or is empty, while a log or a count is there that was
/// made after it (`Missing`). Changes nothing. `Folder` if the folder can't be listed.
pub fn refuse_without(folder: &StoreFolder<'_>, path: String) -> Result<(), Fault> {
    match left_without(folder, path.as_str()) {
        Ok(None) => Ok(()),
        Ok(Some(beside)) => Err(Fault::Store {
            path,
            reason: Unopened::Missing { beside },
        }),
        Err(error) => Err(Fault::Store {
            path,
            reason: Unopened::Folder(error),
        }),
    }
}
