//! Changes that a closure refuses.
ghost use Rattle.std.specs.Prelude.{◌≡◌, length};
ghost use Rattle.up_dispatch.specs.Free.{no_history};
ghost use Rattle.up_dispatch.specs.Parts.{IsNamed};

use super::course::{Course, kept};
use super::disks::count_in;
use super::running::{CommitResult, change, result_of};
use super::tally::Tally;
use super::tasks::board_of;
use crate::logs::{What, entries_of};
use crate::same::expect_same;
use sqlite_disk::Memory;
use std::alloc::Global;
use std::marker::Brand;
use std::process::Abort;
use std::sync::Wait;
use up_dispatch::{Board, BoardParts, Keeper, Naming, Seated};
use up_events::{Accepted, Id, Kind, NoMemory};
use up_history::Chronicle;
use up_machine::{Asked, Reason, Refusal};
use up_replay::fits;
use up_store::Store;
use up_tie::Site;

/// The results of changes that a closure refuses, after the upload 1 of four bytes was created.
fn refuse<K: Keeper, R: Abort>(
    rt: &R,
    alloc: Global,
    keeper: &mut K,
    refused: &Asked,
) -> Vec<CommitResult> {
    let mut told = change(rt, alloc, keeper, &[(What::Make, 1, 4)]);
    let rows = [
        (What::Make, 2, 4),
        (What::Put, 1, 4),
        (What::Remove, 1, 0),
        (What::Remove, 3, 0),
    ];
    for entry in entries_of(alloc, &rows).expect(rt, "memory") {
        if fits(&entry.request) {
            let result = result_of(alloc, keeper, entry.request, entry.id, refused);
            told.push(result).expect(rt, "memory");
        }
    }
    told
}

/// Their results on a plain board.
fn refused_plainly<B: Naming, R: Wait + Abort>(
    rt: &R,
    alloc: Global,
    parts: BoardParts,
    refused: &Asked,
) -> Vec<CommitResult>
    requires named { IsNamed B.name B.parts B.queue B.lanes parts }
    requires lanes { length parts.queues ≡ 2 }
    requires sized { B.max_size ≡ 1000 }
    requires free { B.history ≡ no_history }
{
    let (board, mut seat) = board_of::<B, R>(rt, alloc, parts);
    refuse(rt, alloc, &mut Seated::new(rt, &board, &mut seat), refused)
}

/// These changes through a store. The closure answers this.
#[derive(Drop)]
struct Refusing<'a> {
    refused: &'a Asked,
}

impl Course<Memory> for Refusing<'_> {
    type Found = Vec<CommitResult>;

    fn take<B: Naming, J: Site, K: Chronicle, P: Keeper, R: Wait + Abort>(
        &self,
        rt: &R,
        alloc: Global,
        _board: &Board<B>,
        _store: &Store<Memory, &Tally, J, K>,
        keeper: &mut P,
    ) -> Vec<CommitResult> {
        refuse(rt, alloc, keeper, self.refused)
    }
}

/// Their results through a store, and the number of entries of its log after them.
fn refused_by_store<R: Wait + Abort>(
    rt: &R,
    alloc: Global,
    refused: &Asked,
) -> (Vec<CommitResult>, u64) {
    let disks = (Memory::new(alloc), Memory::new(alloc));
    let tally = Tally::new(alloc).expect(rt, "memory");
    let (told, logs) = kept(rt, alloc, disks, &tally, &Refusing { refused });
    let (count, _) = count_in(alloc, logs.into_disks().0).expect(rt, "a log");
    (told, count)
}

/// The expected results: the upload is created, the closure refuses the next three changes, and the upload 3 does not
/// exist.
fn wanted(alloc: Global, reason: Reason) -> Result<Vec<CommitResult>, NoMemory> {
    let made = Accepted::Created {
        id: Id::new(1),
        length: Some(4),
        kind: Kind::Plain,
    };
    let mut told = Vec::new(alloc);
    told.push(Ok((201, Some(made))))?;
    for _ in 0..3 {
        told.push(Err(Refusal::ByHook {
            status: 418,
            reason,
        }))?;
    }
    told.push(Err(Refusal::NotFound))?;
    Ok(told)
}

#[test]
fn what_a_closure_refuses_is_not_written(rt: HostRuntime) {
    let alloc = rt.alloc();
    let reason = Reason::new(b"not on Sundays").expect(&rt, "a reason");
    let refused = Asked::Refused {
        status: 418,
        reason,
    };
    let want = wanted(alloc, reason).expect(&rt, "memory");
    let parts = BoardParts::new(alloc, 2, 4).expect(&rt, "memory");
    let plain = refused_plainly::<Brand, _>(&rt, alloc, parts, &refused);
    expect_same(&rt, &plain.as_slice(), &want.as_slice());
    let (told, count) = refused_by_store(&rt, alloc, &refused);
    expect_same(&rt, &told.as_slice(), &want.as_slice());
    expect_same(&rt, &count, &1);
}
