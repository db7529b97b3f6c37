//! Stores whose file is taken away.
use super::course::{Course, taken};
use super::running::{CommitResult, change};
use super::tally::Tally;
use crate::logs::What;
use crate::same::expect_same;
use sqlite_disk::Memory;
use std::alloc::Global;
use std::process::Abort;
use std::sync::Wait;
use up_dispatch::{Board, Keeper, Naming};
use up_history::Chronicle;
use up_machine::Refusal;
use up_store::Store;
use up_tie::Site;

/// Whether the file of a store is gone, before and after it is taken away, and later; and the results of changes before
/// and after.
type Found = ([bool; 3], [Vec<CommitResult>; 2]);

/// A change is made, the file is taken away, and another change follows.
#[derive(Drop)]
struct TakingAway<'a> {
    tally: &'a Tally,
}

impl Course<Memory> for TakingAway<'_> {
    type Found = Found;

    fn take<B: Naming, J: Site, K: Chronicle, P: Keeper, R: Wait + Abort>(
        &self,
        rt: &R,
        alloc: Global,
        _board: &Board<B>,
        store: &Store<Memory, &Tally, J, K>,
        keeper: &mut P,
    ) -> Found {
        let first = store.is_gone(rt);
        let made = change(rt, alloc, keeper, &[(What::Make, 1, 4)]);
        self.tally.take_away();
        let gone = [first, store.is_gone(rt), store.is_gone(rt)];
        let refused = change(rt, alloc, keeper, &[(What::Make, 2, 4)]);
        (gone, [made, refused])
    }
}

#[test]
fn no_change_is_made_without_the_file(rt: HostRuntime) {
    let alloc = rt.alloc();
    let tally = Tally::new(alloc).expect(&rt, "memory");
    let disks = (Memory::new(alloc), Memory::new(alloc));
    let course = TakingAway { tally: &tally };
    let (found, _) = taken(&rt, alloc, disks, &tally, &course);
    let (gone, [made, refused]) = found;
    expect_same(&rt, &(gone, tally.gone()), &([false, true, true], 1));
    for told in made.iter() {
        assert!(&rt; told.is_ok());
    }
    expect_same(
        &rt,
        &refused.as_slice(),
        &[Err(Refusal::NoMemory)].as_slice(),
    );
}
