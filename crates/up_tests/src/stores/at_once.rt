//! Jobs that are done through a store at once, each in a thread of its own.
ghost use Rattle.std.specs.Prelude.{◌≡◌, length};
ghost use Rattle.up_dispatch.specs.Parts.{IsNamed};

use super::disks::{Files, files_of};
use super::running::{Boxed, Job, Outcome, Seen, seen, store_on, work};
use super::tally::{Again, Tally};
use super::tasks::board_of;
use sqlite_disk::Disk;
use std::alloc::Global;
use std::marker::{Brand, Send, Sync};
use std::process::Abort;
use std::sync::Wait;
use std::thread;
use std::thread::Threads;
use up_dispatch::{Board, BoardParts, Naming, Seat};
use up_history::Chronicle;
use up_store::{Histories, Store, Stored, Unrestored};
use up_tie::Site;

/// The results of each job, the state of the board after them, and the logs.
#[derive(Drop)]
pub struct Ran<D: Disk> {
    pub outcomes: Vec<Outcome>,
    pub seen: Seen,
    pub logs: Files<D>,
}

/// Does each job in a thread of its own, from a seat of its own, through this store. Returns the results of each job,
/// and the state of the board after them.
fn do_each<
    B: Naming + Send + Sync,
    D: Again + Send + Drop,
    J: Site + Send,
    K: Chronicle + Send,
    R: Threads + Wait + Abort + Sync,
>(
    rt: &R,
    alloc: Global,
    board: &Board<B>,
    store: &Store<D, &Tally, J, K>,
    seat: &mut Seat<B>,
    jobs: Vec<Job>,
) -> (Vec<Outcome>, Seen)
    requires same { J.history ≡ B.history }
{
    let outcomes = thread::map_vec(
        rt,
        jobs,
        &|job: Job| -> Outcome
            requires same { J.history ≡ B.history }
        {
            let mut seat = board.seat(rt).expect(rt, "a seat");
            let mut keeper = Stored::new(rt, board, store, &mut seat);
            work(rt, alloc, &mut keeper, &job)
        },
    );
    let outcomes = outcomes.expect(rt, "threads");
    let mut keeper = Stored::new(rt, board, store, seat);
    (outcomes, seen(rt, alloc, board, &mut keeper))
}

/// Jobs, and a store whose logs are on these disks.
#[derive(Drop)]
struct Given<'a, D> {
    disks: (D, D),
    tally: &'a Tally,
    jobs: Vec<Job>,
}

/// Does each job on a new board with these parts, in a thread of its own, from a seat of its own. `None` if the logs are
/// not opened.
fn run_by<
    B: Naming + Send + Sync,
    J: Site + Send,
    K: Chronicle + Send,
    D: Again + Send + Drop,
    R: Threads + Wait + Abort + Sync,
>(
    rt: &R,
    alloc: Global,
    parts: BoardParts,
    given: Given<'_, D>,
    histories: Histories,
) -> Option<Ran<D>>
    requires named { IsNamed B.name B.parts B.queue B.lanes parts }
    requires lanes { length parts.queues ≡ 2 }
    requires sized { B.max_size ≡ 1000 }
    requires written { histories.written ≡ J.history }
    requires drawn { histories.drawn ≡ K.history }
    requires nothing { J.premise → ⊥ }
    requires same { J.history ≡ B.history }
{
    let (board, mut seat) = board_of::<B, R>(rt, alloc, parts);
    let Given { disks, tally, jobs } = given;
    let opened: Result<Boxed<'_, D, J, K>, Unrestored> = store_on(
        rt, alloc, &board, &mut seat, disks, tally, histories,
    );
    let Ok(store) = opened else {
        return None;
    };
    let (outcomes, seen) = do_each(rt, alloc, &board, &store, &mut seat, jobs);
    let logs = files_of(alloc, store).expect(rt, "memory");
    Some(Ran {
        outcomes,
        seen,
        logs: logs.expect(rt, "a store that is open"),
    })
}

/// Does each job in a thread of its own, through a store whose logs are on these disks. `None` if the logs are not
/// opened.
pub fn run_on<D: Again + Send + Drop, R: Threads + Wait + Abort + Sync>(
    rt: &R,
    alloc: Global,
    disks: (D, D),
    tally: &Tally,
    jobs: Vec<Job>,
) -> Option<Ran<D>> {
    let parts = BoardParts::new(alloc, 2, 4).expect(rt, "memory");
    let histories = Histories::new();
    let given = Given { disks, tally, jobs };
    run_by::<Brand, Brand, Brand, D, R>(rt, alloc, parts, given, histories)
}

/// The same, with logs that can be opened.
pub fn ran_on<D: Again + Send + Drop, R: Threads + Wait + Abort + Sync>(
    rt: &R,
    alloc: Global,
    disks: (D, D),
    tally: &Tally,
    jobs: Vec<Job>,
) -> Ran<D> {
    run_on(rt, alloc, disks, tally, jobs).expect(rt, "an open log")
}
