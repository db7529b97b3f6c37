//! Changes that reach a board after it was closed.
use super::course::{Course, kept};
use super::running::{CommitResult, change, hold_again};
use super::tally::Tally;
use crate::logs::What;
use crate::same::expect_same;
use sqlite_disk::Memory;
use std::alloc::Global;
use std::process::Abort;
use std::sync::Wait;
use up_dispatch::{Board, Keeper, Naming};
use up_history::Chronicle;
use up_machine::Refusal;
use up_store::Store;
use up_tie::Site;

/// The upload 1 is created, the board is closed, and other changes follow.
struct Closing;

impl Course<Memory> for Closing {
    type Found = Vec<CommitResult>;

    fn take<B: Naming, J: Site, K: Chronicle, P: Keeper, R: Wait + Abort>(
        &self,
        rt: &R,
        alloc: Global,
        board: &Board<B>,
        _store: &Store<Memory, &Tally, J, K>,
        keeper: &mut P,
    ) -> Vec<CommitResult> {
        change(rt, alloc, keeper, &[(What::Make, 1, 4)]);
        board.close(rt);
        let rows = [(What::Put, 1, 3), (What::Make, 2, 4), (What::Remove, 1, 0)];
        change(rt, alloc, keeper, &rows)
    }
}

#[test]
fn what_a_closed_board_refuses_does_not_come_back(rt: HostRuntime) {
    let alloc = rt.alloc();
    let disks = (Memory::new(alloc), Memory::new(alloc));
    let tally = Tally::new(alloc).expect(&rt, "memory");
    let (told, logs) = kept(&rt, alloc, disks, &tally, &Closing);
    for told in &told {
        expect_same(&rt, told, &Err(Refusal::Closed));
    }
    expect_same(&rt, &told.len(), &3);
    hold_again(&rt, alloc, logs.into_disks(), &[(What::Make, 1, 4)]);
}
