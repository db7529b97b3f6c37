//! Files that a crash left, files that are refused, and a file of the system.
use crate::logs::{PAIR, SETUP, batches_of, disk_of, log_of, read, spelled_of};
use crate::same::expect_same;
use sqlite_std_file::Unknown;
use std::alloc::Global;
use std::fs;
use std::process::Abort;
use up_log::{Log, LogFault, LogReader, Setup, open_file};

/// The number of batches of a file, before and after one more is appended.
fn counts<R: Abort>(rt: &R, alloc: Global, bytes: &[u8]) -> (u64, u64) {
    let disk = disk_of(alloc, bytes).expect(rt, "a file");
    let (mut log, count) = read(alloc, disk).expect(rt, "a log");
    let entries = spelled_of(alloc, &PAIR).expect(rt, "memory");
    log.append(&mut Vec::new(alloc), &entries)
        .expect(rt, "another batch");
    let (_, again) = read(alloc, log.into_device()).expect(rt, "the log again");
    (count, again)
}

/// The first `left` of the bytes, with one of them changed.
fn changed(
    bytes: &[u8],
    alloc: Global,
    left: usize,
    place: usize,
    byte: u8,
) -> Result<Vec<u8>, LogFault> {
    let mut copy = Vec::from_slice(alloc, bytes)?;
    copy.truncate(left);
    if place < copy.len() {
        copy[place] = byte;
    }
    Ok(copy)
}

/// The number of bytes that are left of a file, the place of a changed byte, its new value, and the number of batches.
type Torn = (usize, usize, u8, u64);

/// Checks the number of batches that are left of these bytes, and that one more can be appended.
fn hold_left<R: Abort>(rt: &R, alloc: Global, bytes: &[u8], torn: Torn) {
    let (left, place, byte, want) = torn;
    let copy = changed(bytes, alloc, left, place, byte).expect(rt, "memory");
    let found = counts(rt, alloc, &copy);
    expect_same(
        rt,
        &(left, byte, place, found),
        &(left, byte, place, (want, want.saturating_add(1))),
    );
}

#[test]
fn a_crash_leaves_whole_batches(rt: HostRuntime) {
    let alloc = rt.alloc();
    let none = log_of(alloc, 0).expect(&rt, "a log");
    let three = log_of(alloc, 3).expect(&rt, "a log");
    let two = log_of(alloc, 2).expect(&rt, "a log").len();
    let end = three.len();
    assert!(rt; two > 0 && end > 0, "no log");
    let gate = two - 1;
    for torn in [
        (end, end - 1, 0, 3u64),
        (end - 1, gate, 1, 3),
        (end, gate, 0, 2),
        (end, gate, 7, 2),
        (gate.min(1000) + 20, gate, 0, 2),
        (two, gate, 1, 2),
        (gate, 0, 1, 2),
        (34, 33, 0, 0),
        (20, 0, 0, 0),
        (1, 0, 9, 0),
        (0, 0, 9, 0),
    ] {
        hold_left(&rt, alloc, &three, torn);
    }
    hold_left(&rt, alloc, &none, (34, 0, 7, 0));
}

/// Why a file is refused, if it is and is unchanged.
fn refusal<R: Abort>(rt: &R, alloc: Global, bytes: &[u8], setup: Setup) -> Option<LogFault> {
    let disk = disk_of(alloc, bytes).expect(rt, "a file");
    match LogReader::open(alloc, disk, setup) {
        Ok(_) => None,
        Err(refused) => {
            if refused.device.bytes() != bytes {
                return None;
            }
            Some(refused.fault)
        }
    }
}

/// Whether a file is refused with this message, and is unchanged.
fn is_refused<R: Abort>(rt: &R, alloc: Global, bytes: &[u8], setup: Setup, want: &str) -> bool {
    match refusal(rt, alloc, bytes, setup) {
        Some(fault) => format!(in alloc; "{fault}").expect(rt, "memory").as_str() == want,
        None => false,
    }
}

#[test]
fn another_file_is_left_as_it_is(rt: HostRuntime) {
    let alloc = rt.alloc();
    let long = b"\0, and behind it more than a heading takes".as_slice();
    let log = log_of(alloc, 1).expect(&rt, "a log");
    let next = changed(&log, alloc, log.len(), 9, 2).expect(&rt, "memory");
    let foreign = "the file is no log of up";
    let lanes = "the log was made with 2 lanes, and is opened with 3";
    let size = "the log was made for uploads of at most 1000 bytes, and is opened for 1001";
    let version = "the log has version 2, and this program reads version 1";
    for (bytes, (lanes, max_size), want) in [
        (b"no log".as_slice(), (2, 1000), foreign),
        (long, (2, 1000), foreign),
        (log.as_slice(), (3, 1000), lanes),
        (log.as_slice(), (2, 1001), size),
        (next.as_slice(), (2, 1000), version),
    ] {
        assert!(rt;
            is_refused(&rt, alloc, bytes, Setup { lanes, max_size }, want),
            "{want}"
        );
    }
}

/// The text of the fault of a call that must fail.
fn text_of<T: Drop, R: Abort>(rt: &R, alloc: Global, called: Result<T, LogFault>) -> String {
    let fault = called.err().expect(rt, "a fault");
    format!(in alloc; "{fault}").expect(rt, "memory")
}

#[test]
fn damage_has_its_place(rt: HostRuntime) {
    let alloc = rt.alloc();
    let one = log_of(alloc, 1).expect(&rt, "a log");
    let two = log_of(alloc, 2).expect(&rt, "a log");
    assert!(rt; !one.is_empty(), "no log");
    // The second block begins with the last byte of a log of one batch. The length after it becomes too large.
    let gate = one.len() - 1;
    let damaged = changed(&two, alloc, two.len(), gate.saturating_add(8), 255);
    let disk = disk_of(alloc, &damaged.expect(&rt, "memory")).expect(&rt, "a file");
    let found = text_of(&rt, alloc, read(alloc, disk));
    let wanted = format!(in alloc; "the log is damaged at byte {gate}");
    expect_same(&rt, &found, &wanted.expect(&rt, "memory"));
}

#[test]
fn a_file_that_became_shorter_is_not_resumed(rt: HostRuntime) {
    let alloc = rt.alloc();
    let log = log_of(alloc, 1).expect(&rt, "a log");
    let disk = disk_of(alloc, b"short").expect(&rt, "a file");
    let (_, result) = Log::resume(disk, log.len());
    let wanted = format!(in alloc;
        "the log has 5 bytes, and {len} were written to it",
        len = log.len()
    );
    let found = text_of(&rt, alloc, result);
    expect_same(&rt, &found, &wanted.expect(&rt, "memory"));
}

/// Writes a log of one batch to a file, and returns whether the file is `Busy` until the log is dropped.
fn is_busy(rt: &HostRuntime, path: &str) -> Result<bool, LogFault> {
    let reader = open_file(rt, path, Unknown, SETUP)?;
    let mut log = match reader.finish() {
        Ok(log) => log,
        Err(refused) => return Err(refused.fault),
    };
    log.append(&mut Vec::new(rt.alloc()), &spelled_of(rt.alloc(), &PAIR)?)?;
    Ok(matches!(open_file(rt, path, Unknown, SETUP), Err(LogFault::Busy)))
}

/// The number of batches of the log in a file.
fn count_of(rt: &HostRuntime, path: &str) -> Result<u64, LogFault> {
    let mut reader = open_file(rt, path, Unknown, SETUP)?;
    batches_of(rt.alloc(), &mut reader)
}

#[test]
fn a_file_is_open_once(rt: HostRuntime) {
    let path = "up_log_tests_file/log";
    let _ = fs::remove_dir_all(&rt, "up_log_tests_file");
    fs::create_dir(&rt, "up_log_tests_file").expect(&rt, "a folder");
    assert!(rt; is_busy(&rt, path).expect(&rt, "a log"));
    let count = count_of(&rt, path).expect(&rt, "a count");
    expect_same(&rt, &count, &1);
    let foreign = b"no log".as_slice();
    fs::write(&rt, path, foreign).expect(&rt, "a file");
    assert!(rt; matches!(count_of(&rt, path), Err(LogFault::Foreign)));
    let bytes = fs::read(&rt, path).expect(&rt, "the file");
    expect_same(&rt, &bytes.as_slice(), &foreign);
    fs::remove_dir_all(&rt, "up_log_tests_file").expect(&rt, "a removal");
}
