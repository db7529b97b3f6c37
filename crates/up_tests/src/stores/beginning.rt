//! Servers that begin over a store.
ghost use Rattle.std.specs.Prelude.{◌≡◌};

use super::tally::Tally;
use super::tasks::{Task, run};
use crate::logs::reader_of;
use sqlite_disk::Memory;
use std::alloc::Global;
use std::marker::{Send, Sync};
use std::process::Abort;
use std::sync::Wait;
use up_dispatch::{Board, Naming, Seat, Service};
use up_handed::{Counted, Permission};
use up_history::Chronicle;
use up_store::{Folder, Histories, Keeping, Shortening};
use up_tie::Site;

/// Whether events might be handed over before conversations were to begin, whether conversations may begin, and whether
/// events may then be handed over.
pub type Begun = (bool, bool, bool);

/// A store on these disks that was not read yet. Earlier runs counted these events. It is in a box, as other stores are.
fn keeping_on<'a, F: Folder<Memory> + Drop, J: Site, K: Chronicle, R: Abort>(
    rt: &R,
    alloc: Global,
    disks: (Memory, Memory),
    shortening: Shortening<Memory, F>,
    counts: Vec<Counted>,
    tally: &'a Tally,
    histories: Histories,
) -> Box<Keeping<Memory, &'a Tally, F, J, K>, Global>
    requires written { histories.written ≡ J.history }
    requires drawn { histories.drawn ≡ K.history }
    requires nothing { J.premise → ⊥ }
{
    let changes = reader_of(alloc, disks.0).expect(rt, "a log");
    let voids = reader_of(alloc, disks.1).expect(rt, "voids");
    let keeping = Keeping::new(alloc, changes, voids, histories, tally, shortening, counts);
    Box::new(alloc, keeping.expect(rt, "memory")).expect(rt, "memory")
}

/// A server that begins over a store on these disks, of whose lanes earlier runs counted these events.
#[derive(Drop)]
struct Beginning<F> {
    disks: (Memory, Memory),
    shortening: Shortening<Memory, F>,
    counts: Vec<Counted>,
}

impl<F: Folder<Memory> + Drop + Sync, R: Wait + Abort> Task<R> for Beginning<F> {
    type Found = Begun;

    fn run<B: Naming, J: Site + Send, K: Chronicle + Send>(
        self,
        rt: &R,
        alloc: Global,
        board: &Board<B>,
        seat: Seat<B>,
        histories: Histories,
    ) -> Begun {
        let Beginning {
            disks,
            shortening,
            counts,
        } = self;
        let tally = Tally::new(alloc).expect(rt, "memory");
        let keeping: Box<Keeping<Memory, &Tally, F, J, K>, Global> = keeping_on(
            rt, alloc, disks, shortening, counts, &tally, histories,
        );
        let before = keeping.permit().is_given();
        let (_seat, is_ready) = keeping.begin(rt, alloc, board, seat);
        (before, is_ready, keeping.permit().is_given())
    }
}

/// Begins over a store on these disks, of whose lanes earlier runs counted these events.
pub fn begun<F: Folder<Memory> + Drop + Sync, R: Wait + Abort>(
    rt: &R,
    alloc: Global,
    disks: (Memory, Memory),
    shortening: Shortening<Memory, F>,
    counts: Vec<Counted>,
) -> Begun {
    let beginning = Beginning {
        disks,
        shortening,
        counts,
    };
    run(rt, alloc, beginning)
}
