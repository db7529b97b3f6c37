//! What a test does through a store that is open.
ghost use Rattle.std.specs.Prelude.{◌≡◌};

use super::disks::{Files, files_of};
use super::running::{Boxed, change, store_on};
use super::tally::{Again, Tally};
use super::tasks::{Task, run};
use crate::logs::Row;
use std::alloc::Global;
use std::marker::Send;
use std::process::Abort;
use std::sync::Wait;
use up_dispatch::{Board, Keeper, Naming, Seat};
use up_history::Chronicle;
use up_store::{Histories, Store, Stored};
use up_tie::Site;

/// What is done through a store.
pub trait Course<D: Again + Drop> {
    /// What comes of it.
    type Found: Drop;

    /// Does it, with a keeper whose changes are written to the store before the board makes them.
    fn take<B: Naming, J: Site, K: Chronicle, P: Keeper, R: Wait + Abort>(
        &self,
        rt: &R,
        alloc: Global,
        board: &Board<B>,
        store: &Store<D, &Tally, J, K>,
        keeper: &mut P,
    ) -> Self::Found;
}

/// What comes of a course through this store, from this seat.
fn found_through<B: Naming, D: Again + Drop, J: Site, K: Chronicle, C: Course<D>, R: Wait + Abort>(
    rt: &R,
    alloc: Global,
    board: &Board<B>,
    store: &Store<D, &Tally, J, K>,
    seat: &mut Seat<B>,
    course: &C,
) -> C::Found
    requires same { J.history ≡ B.history }
{
    let mut keeper = Stored::new(rt, board, store, seat);
    course.take(rt, alloc, board, store, &mut keeper)
}

/// Makes these changes through this store, from this seat.
pub fn change_in<B: Naming, D: Again + Drop, J: Site, K: Chronicle, R: Wait + Abort>(
    rt: &R,
    alloc: Global,
    board: &Board<B>,
    store: &Store<D, &Tally, J, K>,
    seat: &mut Seat<B>,
    rows: &[Row],
)
    requires same { J.history ≡ B.history }
{
    let mut keeper = Stored::new(rt, board, store, seat);
    change(rt, alloc, &mut keeper, rows);
}

/// A course through a store whose logs are on these disks.
#[derive(Drop)]
struct Through<'a, D, C> {
    disks: (D, D),
    tally: &'a Tally,
    course: &'a C,
}

impl<D: Again + Drop, C: Course<D>, R: Wait + Abort> Task<R> for Through<'_, D, C> {
    type Found = (C::Found, Option<Files<D>>);

    fn run<B: Naming, J: Site + Send, K: Chronicle + Send>(
        self,
        rt: &R,
        alloc: Global,
        board: &Board<B>,
        seat: Seat<B>,
        histories: Histories,
    ) -> Self::Found {
        let Through {
            disks,
            tally,
            course,
        } = self;
        let mut seat = seat;
        let store: Boxed<'_, D, J, K> = store_on(
            rt, alloc, board, &mut seat, disks, tally, histories,
        ).expect(rt, "a store");
        let found = found_through(rt, alloc, board, &store, &mut seat, course);
        (found, files_of(alloc, store).expect(rt, "memory"))
    }
}

/// What comes of a course through a store whose logs are on these disks, and the files of the logs, if the store is
/// still open.
pub fn taken<D: Again + Drop, C: Course<D>, R: Wait + Abort>(
    rt: &R,
    alloc: Global,
    disks: (D, D),
    tally: &Tally,
    course: &C,
) -> (C::Found, Option<Files<D>>) {
    let through = Through {
        disks,
        tally,
        course,
    };
    run(rt, alloc, through)
}

/// The same, of a course after which the store is still open.
pub fn kept<D: Again + Drop, C: Course<D>, R: Wait + Abort>(
    rt: &R,
    alloc: Global,
    disks: (D, D),
    tally: &Tally,
    course: &C,
) -> (C::Found, Files<D>) {
    let (found, logs) = taken(rt, alloc, disks, tally, course);
    (found, logs.expect(rt, "a store that is open"))
}
