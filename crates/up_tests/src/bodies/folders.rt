//! Bodies that are put into the files of a folder, and read from them.
ghost use Rattle.std.specs.Prelude.{◌≡◌, ◌+◌, ◌%◌, ◌<◌, length, min};

use super::blocks::{HEAD, HELLO, file_of};
use crate::same::expect_same;
use sqlite_disk::{Disk, Memory};
use std::alloc::Global;
use std::process::Abort;
use std::sync::atomic::{AtomicU64, Ordering};
use std::{fs, io};
use up_bodies::{BodyFault, BodyFiles, BodyFolder, BodyNotices, BodyShelf, BodySpool, Head};
use up_places::{BLOCK, Place, Position, Shelf, Spool};

/// A folder of which file 7 is `HELLO`, and no other file can be opened. The files that are made are numbered from 0 on, up
/// to this number, after which none can be made.
#[derive(Drop)]
struct Files {
    alloc: Global,
    most: u64,
    made: AtomicU64,
    /// How many faults were told, of making, opening, reading and writing: 1, 10, 100 and 1,000 for each.
    told: AtomicU64,
}

impl Files {
    fn new(alloc: Global, most: u64) -> Files {
        Files {
            alloc,
            most,
            made: AtomicU64::new(0),
            told: AtomicU64::new(0),
        }
    }
}

impl BodyFiles<Memory> for Files {
    fn make(&self) -> io::Result<(u64, Memory)> {
        let number = self.made.fetch_add(1, Ordering::SeqCst);
        if number < self.most {
            Ok((number, Memory::new(self.alloc)))
        } else {
            Err(io::ErrorKind::StorageFull.into())
        }
    }

    fn open(&self, number: u64) -> io::Result<Memory> {
        if number == 7 {
            file_of(self.alloc, &HELLO)
        } else {
            Err(io::ErrorKind::NotFound.into())
        }
    }

    fn head(&self, number: u64) -> Head {
        Head { number, ..HEAD }
    }

    fn tell(&self, fault: &BodyFault) {
        let one = match fault {
            BodyFault::Made(_) => 1,
            BodyFault::Opened { .. } => 10,
            BodyFault::Read { .. } => 100,
            BodyFault::Written { .. } => 1_000,
        };
        self.told.fetch_add(one, Ordering::SeqCst);
    }
}

/// Puts a block of this many bytes, at most 65,536.
fn put_block<S: Spool, R: Abort + AllocGlobal>(rt: &R, spool: &mut S, count: usize)
    requires whole { length (S.body spool.old) % 65_536 ≡ 0 }
    ensures { length (S.body spool.new) ≡ length (S.body spool.old) + min count 65_536 }
{
    let mut block = vec![in rt.alloc(); 7; count.min(BLOCK)].expect(rt, "memory");
    spool.put(&mut block).expect(rt, "a put");
}

/// Puts a body of a whole block, if that is wanted, and of the rest. Returns where it is: the number of the file, the first
/// byte, and the number of bytes. `None` if the body stays in memory.
fn put_body<S: Spool, R: Abort + AllocGlobal>(
    rt: &R,
    spool: &mut S,
    has_whole: bool,
    rest: usize,
) -> Option<(u64, u64, usize)> {
    if !spool.begin(Some(rest as u64)).expect(rt, "a begin") {
        return None;
    }
    if has_whole {
        put_block(rt, spool, BLOCK);
    }
    put_block(rt, spool, rest);
    let place = spool.finish().expect(rt, "a place");
    Some((place.file(), place.at(), place.len()))
}

/// The place in this file with "hello world", as `HELLO` has it.
fn hello_in(file: u64) -> Place
    ensures { 0 < length result.bytes }
{
    let mut place = Place::empty(Position { file, at: 56 });
    place.extend(b"hello world");
    place
}

/// The first and the last byte of "hello world", and of 11 bytes that are 7.
const HELLO_ENDS: Option<(u8, u8)> = Some((b'h', b'd'));

const SEVENS: Option<(u8, u8)> = Some((7, 7));

/// The first and the last byte that a shelf reads of such a place. `None` if it reads nothing.
fn read_ends<S: Shelf, R: Abort + AllocGlobal>(
    rt: &R,
    shelf: &mut S,
    file: u64,
) -> Option<(u8, u8)> {
    if shelf.read(&hello_in(file), 0).is_err() {
        return None;
    }
    let block = shelf.block();
    Some((*block.first()?, *block.last()?))
}

/// Checks what one shelf reads of such places in these files.
fn hold_ends<D: Disk + Drop, B: BodyFiles<D>, R: Abort + AllocGlobal>(
    rt: &R,
    files: &B,
    wanted: &[(u64, Option<(u8, u8)>)],
) {
    let mut shelf = BodyShelf::new(rt.alloc(), files);
    for (file, wanted) in wanted {
        expect_same(rt, &read_ends(rt, &mut shelf, *file), wanted);
    }
}

#[test]
fn bodies_follow_each_other_in_a_file(rt: HostRuntime) {
    let files = Files::new(rt.alloc(), 9);
    let mut spool = BodySpool::new(rt.alloc(), &files, 10, 1 << 20);
    for (has_whole, rest, wanted) in [
        (false, 9, None),
        (false, 10, Some((0, 56, 10))),
        (true, 11, Some((0, 80, 65_547))),
        (false, BLOCK, Some((0, 65_648, BLOCK))),
        (false, 12, Some((0, 131_192, 12))),
    ] {
        let place = put_body(&rt, &mut spool, has_whole, rest);
        expect_same(&rt, &place, &wanted);
    }
    expect_same(&rt, &files.told.load(Ordering::SeqCst), &0);
}

#[test]
fn a_full_file_takes_no_further_body(rt: HostRuntime) {
    let files = Files::new(rt.alloc(), 2);
    let mut spool = BodySpool::new(rt.alloc(), &files, 0, 100);
    for (rest, wanted) in [(200, (0, 56, 200)), (28, (1, 56, 28)), (1, (1, 96, 1))] {
        let place = put_body(&rt, &mut spool, false, rest);
        expect_same(&rt, &place, &Some(wanted));
    }
    expect_same(&rt, &spool.begin(None).is_err(), &true);
    expect_same(&rt, &files.told.load(Ordering::SeqCst), &1);
}

#[test]
fn places_are_read_from_their_files(rt: HostRuntime) {
    let files = Files::new(rt.alloc(), 0);
    let wanted = [(7, HELLO_ENDS), (7, HELLO_ENDS), (8, None), (7, HELLO_ENDS)];
    hold_ends(&rt, &files, &wanted);
    expect_same(&rt, &files.told.load(Ordering::SeqCst), &10);
}

/// Nobody is told of faults.
#[derive(Drop)]
pub struct Untold;

impl BodyNotices for Untold {
    fn tell(&self, _: &BodyFault) {}
}

/// The folder of a store in which the tests of folders are.
static STORE: &str = "up_bodies_tests_store";

/// Opens the folder of bodies there.
fn folder_of(rt: &HostRuntime) -> io::Result<BodyFolder<'_, Untold>> {
    BodyFolder::open(rt, STORE, HEAD.store, 3, Untold)
}

/// Puts a body of 11 bytes into a new file, and returns its number.
fn put_body_in<D: Disk + Drop, B: BodyFiles<D>, R: Abort + AllocGlobal>(rt: &R, files: &B) -> u64 {
    let mut spool = BodySpool::new(rt.alloc(), files, 0, 1 << 20);
    if spool.begin(None).expect(rt, "a body") {
        put_block(rt, &mut spool, 11);
    }
    spool.finish().expect(rt, "a place").file()
}

#[test]
fn a_folder_numbers_its_files(rt: HostRuntime) {
    let _ = fs::remove_dir_all(&rt, STORE);
    fs::create_dir(&rt, STORE).expect(&rt, "a folder");
    for wanted in [0, 1] {
        let folder = folder_of(&rt).expect(&rt, "the folder");
        expect_same(&rt, &put_body_in(&rt, &folder), &wanted);
        expect_same(&rt, &folder.size_of(wanted).unwrap_or(0), &80);
    }
    let folder = folder_of(&rt).expect(&rt, "the folder");
    folder.remove(0).expect(&rt, "a removal");
    hold_ends(&rt, &folder, &[(0, None), (1, SEVENS), (2, None)]);
    expect_same(&rt, &put_body_in(&rt, &folder), &2);
    fs::remove_dir_all(&rt, STORE).expect(&rt, "a removal");
}

#[test]
fn an_earlier_log_reads_no_later_file(rt: HostRuntime) {
    let store = "up_bodies_tests_generation";
    let _ = fs::remove_dir_all(&rt, store);
    fs::create_dir(&rt, store).expect(&rt, "a folder");
    let folder = BodyFolder::open(&rt, store, HEAD.store, 3, Untold).expect(&rt, "the folder");
    folder.set_generation(4);
    expect_same(&rt, &put_body_in(&rt, &folder), &0);
    for (generation, wanted) in [(3, None), (4, SEVENS), (5, SEVENS)] {
        folder.set_generation(generation);
        hold_ends(&rt, &folder, &[(0, wanted)]);
    }
    fs::remove_dir_all(&rt, store).expect(&rt, "a removal");
}
