//! What is written to files of bodies, what is read from them, and what is refused.
use crate::same::expect_same;
use sqlite_disk::{Crash, Disk, Memory};
use std::alloc::Global;
use std::{fs, io};
use up_bodies::{
    BlockFault, BlockReader, BlockWriter, Head, OpenFault, block_len, make_body_file,
    open_body_file,
};
use up_places::BLOCK;

/// The head of the files here.
pub static HEAD: Head = Head {
    store: *b"0123456789abcdef",
    generation: 3,
    number: 7,
};

/// A file with this head and a block of "hello world". Its checksums are those of SQLite's WAL, as another program
/// computes them.
pub static HELLO: [u8; 80] = [
    117, 112, 32, 98, 111, 100, 121, 10, 2, 0, 0, 0, 0, 0, 0, 0, 3, 0, 0, 0, 0, 0, 0, 0, 7, 0, 0,
    0, 0, 0, 0, 0, 48, 49, 50, 51, 52, 53, 54, 55, 56, 57, 97, 98, 99, 100, 101, 102, 224, 125, 87,
    93, 223, 200, 60, 167, 104, 101, 108, 108, 111, 32, 119, 111, 114, 108, 100, 0, 0, 0, 0, 0, 33,
    21, 80, 85, 155, 1, 106, 141,
];

/// Writes these parts of a body to a new file, each as a block. All of it is on the disk.
fn written_to<D: Disk + Drop>(
    alloc: Global,
    device: D,
    parts: &[&[u8]],
) -> Result<BlockWriter<D>, BlockFault> {
    let Ok(mut file) = BlockWriter::create(alloc, device, &HEAD) else {
        return Err(BlockFault::Broken);
    };
    for part in parts {
        let mut bytes = Vec::from_slice(alloc, &part[..part.len().min(BLOCK)])?;
        file.put(&mut bytes)?;
    }
    file.settle()?;
    Ok(file)
}

/// The same in memory.
fn written(alloc: Global, parts: &[&[u8]]) -> Result<BlockWriter<Memory>, BlockFault> {
    written_to(alloc, Memory::new(alloc), parts)
}

/// A file that has these bytes.
pub fn file_of(alloc: Global, bytes: &[u8]) -> io::Result<Memory> {
    let mut device = Memory::new(alloc);
    if device.may_be_used() {
        device.write_at(0, bytes)?;
    }
    Ok(device)
}

/// Why a file with this head is not opened, or its first block of a body of 11 bytes not read: a letter.
fn fault_of<D: Disk + Drop>(alloc: Global, device: D, head: &Head) -> char {
    let mut file = match BlockReader::open(alloc, device, head) {
        Ok(file) => file,
        Err(refused) => {
            return match refused.fault {
                OpenFault::Foreign => 'F',
                OpenFault::Version(_) => 'V',
                OpenFault::Damaged => 'D',
                OpenFault::OtherStore => 'S',
                OpenFault::OtherNumber(_) => 'N',
                OpenFault::Later { .. } => 'L',
                OpenFault::Broken => 'X',
                OpenFault::Disk(_) => 'I',
                OpenFault::NoMemory => 'M',
            };
        }
    };
    let mut room = [0; 24];
    match file.read(56, 0, &mut room) {
        Ok(()) if room.starts_with(b"hello world") => '-',
        Ok(()) => '?',
        Err(BlockFault::Damaged) => 'B',
        Err(BlockFault::Disk(_)) => 'i',
        Err(_) => 'x',
    }
}

/// The letter of `fault_of` for a file of which one byte was changed.
fn after_a_change(alloc: Global, place: usize) -> io::Result<char> {
    let mut bytes = HELLO;
    if place < bytes.len() {
        bytes[place] ^= 1;
    }
    Ok(fault_of(alloc, file_of(alloc, &bytes)?, &HEAD))
}

/// The bytes of a part of the body whose blocks begin at byte 56.
fn part(alloc: Global, device: Memory, index: usize, len: usize) -> Result<Vec<u8>, BlockFault> {
    let Ok(mut file) = BlockReader::open(alloc, device, &HEAD) else {
        return Err(BlockFault::Broken);
    };
    let mut room = vec![in alloc; 0; block_len(len.min(BLOCK))]?;
    file.read(56, index, &mut room)?;
    room.truncate(len);
    Ok(room)
}

#[test]
fn a_file_has_a_head_and_blocks(rt: HostRuntime) {
    let file = written(rt.alloc(), &[b"hello world"]).expect(&rt, "a file");
    expect_same(&rt, &file.end(), &80);
    let device = file.into_device();
    expect_same(&rt, &device.bytes(), &HELLO.as_slice());
}

#[test]
fn each_changed_byte_is_found(rt: HostRuntime) {
    let mut letters = String::new(rt.alloc());
    for place in 0..81 {
        let letter = after_a_change(rt.alloc(), place).expect(&rt, "a file");
        letters.push(letter).expect(&rt, "memory");
    }
    let wanted =
        "FFFFFFFFVVVVVVVVDLLLLLLLNNNNNNNNSSSSSSSSSSSSSSSSDDDDDDDDBBBBBBBBBBBBBBBBBBBBBBBB-";
    expect_same(&rt, &letters.as_str(), &wanted);
}

#[test]
fn a_file_may_be_earlier_than_the_log(rt: HostRuntime) {
    for (generation, wanted) in [(2, 'L'), (3, '-'), (4, '-')] {
        let device = file_of(rt.alloc(), &HELLO).expect(&rt, "a file");
        let head = Head { generation, ..HEAD };
        expect_same(&rt, &fault_of(rt.alloc(), device, &head), &wanted);
    }
}

#[test]
fn a_short_file_is_refused(rt: HostRuntime) {
    for (len, wanted) in [(0, 'I'), (55, 'I'), (56, 'i'), (79, 'i'), (80, '-')] {
        let device = file_of(rt.alloc(), &HELLO[..len]).expect(&rt, "a file");
        expect_same(&rt, &fault_of(rt.alloc(), device, &HEAD), &wanted);
    }
}

#[test]
fn the_blocks_of_a_body_follow_each_other(rt: HostRuntime) {
    let alloc = rt.alloc();
    let whole = vec![in alloc; 7; BLOCK].expect(&rt, "memory");
    for (index, len, first) in [(0, BLOCK, 7), (1, BLOCK, 7), (2, 11, b'h')] {
        let file = written(alloc, &[&whole, &whole, b"hello world"]).expect(&rt, "a file");
        let found = part(alloc, file.into_device(), index, len).expect(&rt, "a part");
        expect_same(
            &rt,
            &(found.len(), found.first().copied()),
            &(len, Some(first)),
        );
    }
}

#[test]
fn a_crash_leaves_what_was_settled(rt: HostRuntime) {
    let alloc = rt.alloc();
    let mut file = written(alloc, &[b"hello world"]).expect(&rt, "a file");
    let mut more = Vec::from_slice(alloc, b"more").expect(&rt, "memory");
    file.put(&mut more).expect(&rt, "a block");
    let mut device = file.into_device();
    device.crash();
    expect_same(&rt, &fault_of(alloc, device, &HEAD), &'-');
}

#[test]
fn a_file_of_the_system_is_made_once(rt: HostRuntime) {
    let (folder, path) = ("up_bodies_tests_files", "up_bodies_tests_files/7");
    let _ = fs::remove_dir_all(&rt, folder);
    fs::create_dir(&rt, folder).expect(&rt, "a folder");
    expect_same(&rt, &open_body_file(&rt, path).is_err(), &true);
    let device = make_body_file(&rt, folder, path).expect(&rt, "a file");
    let made = written_to(rt.alloc(), device, &[b"hello world"]).expect(&rt, "a body");
    let device = open_body_file(&rt, path).expect(&rt, "the file");
    expect_same(&rt, &fault_of(rt.alloc(), device, &HEAD), &'-');
    expect_same(&rt, &made.end(), &80);
    let bytes = fs::read(&rt, path).expect(&rt, "its bytes");
    expect_same(&rt, &bytes.as_slice(), &HELLO.as_slice());
    let again = match make_body_file(&rt, folder, path) {
        Ok(_) => None,
        Err(error) => Some(error.kind()),
    };
    expect_same(&rt, &again, &Some(io::ErrorKind::AlreadyExists));
    fs::remove_dir_all(&rt, folder).expect(&rt, "a removal");
}
