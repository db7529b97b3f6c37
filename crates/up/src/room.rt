//! Room on the disk of a store that is kept for removals.
use std::fs;
use std::fs::{Files, OpenFile, OpenOptions};
use std::io::{self, Write};

/// What is written at a time: 4 KiB of zeros.
const ZEROS: [u8; 4096] = [0; 4096];

/// How many times it is written: 1 MiB in all.
const TIMES: u64 = 256;

/// Writes 1 MiB.
fn fill<W: Write>(file: &mut W) -> io::Result<()> {
    for _ in 0..TIMES {
        file.write_all(&ZEROS)?;
    }
    Ok(())
}

/// Writes 1 MiB to the file at this path, over what it has. Returns the file, at the place after that.
fn filled<R: Files>(rt: &R, path: &str) -> io::Result<R::File> {
    let mut file = OpenOptions::new().write(true).create(true).open(rt, path)?;
    fill(&mut file)?;
    Ok(file)
}

/// Keeps 1 MiB in the file at this path. The error is that the disk doesn't have that much; there is no file then. If
/// `for_others` is set, it is also an error if the disk doesn't have another 1 MiB.
pub fn keep_room<R: Files>(rt: &R, path: &str, for_others: bool) -> io::Result<()> {
    let mut file = match filled(rt, path) {
        Ok(file) => file,
        Err(error) => {
            give_up_room(rt, path);
            return Err(error);
        }
    };
    let is_enough = if for_others { fill(&mut file) } else { Ok(()) };
    let is_there = file.sync_all();
    file.set_len(TIMES * 4096)?;
    is_enough?;
    is_there
}

/// Removes the file at this path, which frees its room. Returns whether there was one.
pub fn give_up_room<R: Files>(rt: &R, path: &str) -> bool {
    fs::remove_file(rt, path).is_ok()
}
