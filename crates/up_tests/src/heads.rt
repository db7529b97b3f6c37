//! Which log is the current one after disks fail and crash.
use crate::logs::heads_of;
use crate::same::expect_same;
use sqlite_disk::{Crash, Fuse, Memory};
use std::alloc::{AllocError, Global};
use std::process::Abort;
use up_compact::Head;
use up_message::Sequence;

fn head(alloc: Global, generation: u64, left_out: &[u64]) -> Result<Head, AllocError> {
    Ok(Head {
        generation,
        entries: 12,
        left_out: Sequence::from_slice(alloc, left_out)?,
    })
}

#[test]
fn the_last_head_holds(rt: HostRuntime) {
    let alloc = rt.alloc();
    let (mut heads, first) = heads_of(alloc, Memory::new(alloc)).expect(&rt, "heads");
    expect_same(&rt, &first.generation, &0);
    let left_out = [70, u64::MAX];
    let one = head(alloc, 1, &[7, 9]).expect(&rt, "memory");
    let two = head(alloc, 2, &left_out).expect(&rt, "memory");
    heads.add(alloc, &one).expect(&rt, "a head");
    heads.add(alloc, &two).expect(&rt, "another head");
    let (_, last) = heads_of(alloc, heads.into_device()).expect(&rt, "the heads again");
    expect_same(&rt, &(last.generation, last.entries), &(2, 12));
    expect_same(&rt, &last.left_out.as_slice(), &left_out.as_slice());
}

/// Whether a second head is added on a disk that fails from some call on, and which head a crash leaves. `None` if the
/// disk fails before.
fn left<R: Abort>(rt: &R, alloc: Global, calls: u64) -> Option<(bool, u64)> {
    let first = head(alloc, 1, &[3, 4]).expect(rt, "memory");
    let second = head(alloc, 2, &[5, 6]).expect(rt, "memory");
    let Ok((mut heads, _)) = heads_of(alloc, Fuse::new(Memory::new(alloc), calls)) else {
        return None;
    };
    if heads.add(alloc, &first).is_err() {
        return None;
    }
    let is_added = heads.add(alloc, &second).is_ok();
    let mut disk = heads.into_device();
    disk.crash();
    let (_, last) = heads_of(alloc, disk).expect(rt, "the heads again");
    Some((is_added, last.generation))
}

#[test]
fn a_crash_leaves_one_of_two_heads(rt: HostRuntime) {
    let alloc = rt.alloc();
    let mut seen = [false; 2];
    for calls in 0..30 {
        let Some((is_added, generation)) = left(&rt, alloc, calls) else {
            continue;
        };
        let want = if is_added { 2 } else { 1 };
        expect_same(&rt, &(calls, generation), &(calls, want));
        seen[is_added as usize] = true;
    }
    expect_same(&rt, &seen, &[true; 2]);
}
