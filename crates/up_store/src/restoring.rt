//! Carrying out the entries of a log again, on a board.
ghost use Rattle.std.specs.Prelude.{◌≡◌, ◌≢◌, ◌≤◌, ◌++◌, OnOk, IfOk, List, Result, Err, Some, true, false, length};
ghost use Rattle.up_dispatch.specs.Lists.{EachAt};
ghost use Rattle.up_dispatch.specs.Tied.{CommitsAfter};
ghost use Rattle.up_log.specs.declared.entry.Entry.{Entry as Logged};
ghost use Rattle.up_machine.specs.declared.plan.Done.{Done as Carried};
ghost use Rattle.up_machine.specs.declared.refusal.Refusal.{Refusal as Refused};
ghost use Rattle.up_machine.specs.declared.refusal.Refusal.TheVariants.{NoMemory};
ghost use Rattle.up_store.specs.Permits.{HasCounted};

use crate::store::Store;
use crate::unrestored::Unrestored;
use crate::voids::Voids;
use sqlite_disk::Disk;
use std::alloc::Global;
use std::collections::BTreeSet;
use std::sync::Wait;
use up_dispatch::{Board, Naming, Seat};
use up_handed::Counted;
use up_history::{Chronicle, Front, Receipt};
use up_log::{Entry, LogReader};
use up_machine::Refusal;
use up_message::Sequence;
use up_places::NoFiles;
use up_replay::{Unreplayed, fits};
use up_tie::{Reading, Site, Written};

/// The open logs of a store.
#[derive(Drop)]
pub struct Logs<D: Disk, J: Site> {
    pub changes: Written<D, J>,
    pub voids: Voids<D>,
    /// How many entries the log of the changes has.
    pub count: u64,
}

/// What the logs of a store have at least, if its files belong together.
#[derive(Clone, Copy)]
pub struct Least<'a> {
    /// How many entries the log of the changes has.
    pub entries: u64,
    /// How many events of each lane earlier runs counted.
    pub events: &'a [Counted],
}

/// Carries out the entry of a receipt again, or passes over it if it is void. If it is refused, it was refused before,
/// too. The error is that it is too long for a request, or that memory ran out.
fn take_in<B: Naming, R: Wait>(
    rt: &R,
    alloc: Global,
    board: &Board<B>,
    seat: &mut Seat<B>,
    receipt: &Receipt<Entry, B>,
    entry: Entry,
    is_void: bool,
) -> Result<(), Unreplayed>
    requires claims { receipt.now.entry ≡ Some entry }
    ensures void { is_void ≡ true → seat.new ≡ seat.old }
    ensures carried { is_void ≡ false → OnOk result ((done : Result Carried Refused)
        × CommitsAfter B.queue B.lanes B.max_size receipt.now.before seat.old entry seat.new done
        × (done ≢ Err NoMemory)) }
{
    if is_void {
        return match board.pass_over(rt, receipt, &entry) {
            Some(()) => Ok(()),
            None => Err(Unreplayed::Memory),
        };
    }
    if !fits(&entry.request) {
        return Err(Unreplayed::TooLong);
    }
    match board.commit_at(rt, alloc, seat, receipt, entry) {
        None | Some(Err(Refusal::NoMemory)) => Err(Unreplayed::Memory),
        Some(_) => Ok(()),
    }
}

/// Carries out the last entries of a front again, except for those that are void.
fn take_in_all<B: Naming, R: Wait>(
    rt: &R,
    alloc: Global,
    board: &Board<B>,
    seat: &mut Seat<B>,
    entries: Sequence<Entry>,
    voids: &BTreeSet<u64>,
    front: &Front<Entry, B>,
) -> Result<(), Unreplayed>
    requires last { (before : List Logged) × (front.now ≡ before ++ entries) }
{
    let mut place = front.len() - entries.len() as u64;
    for entry in entries.into_vec() {
        let receipt = Receipt::of(front, place);
        let is_void = voids.contains(&place);
        take_in(rt, alloc, board, seat, &receipt, entry, is_void)?;
        place += 1;
    }
    Ok(())
}

/// Reads the log of the changes to its end, and carries out the changes again in their order, from this seat of a new
/// board. The file is unchanged.
fn take_in_log<B: Naming, D: Disk, J: Site, R: Wait>(
    rt: &R,
    alloc: Global,
    board: &Board<B>,
    seat: &mut Seat<B>,
    changes: Reading<D, NoFiles, J>,
    voids: &BTreeSet<u64>,
) -> Result<Reading<D, NoFiles, J>, Unrestored>
where
    D: Drop,
    requires same { J.history ≡ B.history }
{
    let mut reading = changes;
    for _ in 0..u64::MAX {
        let (next, batch) = reading.next_batch(alloc).map_err(Unrestored::Changes)?;
        reading = next;
        let Some(entries) = batch else {
            break;
        };
        let front = reading.front().known_as();
        take_in_all(rt, alloc, board, seat, entries, voids, &front)?;
    }
    Ok(reading)
}

/// Checks that the log of a lane has at least as many events as earlier runs counted, on a board that has followed
/// exactly these entries. The error says how many it has.
fn check_lane<B: Naming, R: Wait>(
    rt: &R,
    board: &Board<B>,
    entries: &Front<Entry, B>,
    lane: u64,
    counted: &Counted,
) -> Result<(), Unrestored>
    ensures { OnOk result (HasCounted B.lanes B.max_size entries.now lane counted.now) }
{
    let Some(logged) = board.logged(rt, entries, lane) else {
        return Err(Unrestored::Entry(Unreplayed::Memory));
    };
    let logged = counted.left_out.saturating_add(logged);
    if logged < counted.count {
        return Err(Unrestored::Lane {
            lane,
            counted: counted.count,
            logged,
        });
    }
    Ok(())
}

/// Checks this for each lane.
fn check_lanes<B: Naming, R: Wait>(
    rt: &R,
    board: &Board<B>,
    entries: &Front<Entry, B>,
    counted: &[Counted],
) -> Result<(), Unrestored>
    ensures { OnOk result (EachAt (HasCounted B.lanes B.max_size entries.now) counted.now) }
{
    let mut lane: u64 = 0;
    for of_lane in counted {
        check_lane(rt, board, entries, lane, of_lane)?;
        lane += 1;
    }
    Ok(())
}

/// Checks that a log that was read to its end has what it has at least, on a board that has followed its entries.
fn check<B: Naming, R: Wait>(
    rt: &R,
    board: &Board<B>,
    entries: &Front<Entry, B>,
    least: &Least<'_>,
) -> Result<(), Unrestored>
    ensures least { OnOk result (least.now.entries ≤ length entries.now) }
    ensures counted { OnOk result
        (EachAt (HasCounted B.lanes B.max_size entries.now) least.now.events.now) }
{
    if entries.len() < least.entries {
        return Err(Unrestored::Fewer {
            found: entries.len(),
            least: least.entries,
        });
    }
    check_lanes(rt, board, entries, least.events)
}

impl<D: Disk, N, J: Site, K: Chronicle> Store<D, N, J, K> {
    /// Reads the log of the changes and that of the voids to their ends, and carries out the changes again in their
    /// order, from this seat of a new board. Its book is then the one that the changes define. At most one batch is in
    /// memory at a time. The error says why a log can't be read, or why an entry can't be carried out; or it is `Fewer`
    /// or `Lane` if the logs have less than `least`. The file of the changes is unchanged then.
    pub fn restore<B: Naming, R: Wait>(
        &self,
        rt: &R,
        alloc: Global,
        board: &Board<B>,
        seat: &mut Seat<B>,
        readers: (Reading<D, NoFiles, J>, LogReader<D>),
        least: &Least<'_>,
    ) -> Result<Logs<D, J>, Unrestored>
    where
        D: Drop,
        requires same { J.history ≡ B.history }
        ensures least { IfOk result (λ logs. least.now.entries ≤ length logs.changes.entries) }
        ensures counted { IfOk result (λ logs.
            EachAt (HasCounted B.lanes B.max_size logs.changes.entries) least.now.events.now) }
    {
        let (changes, voids) = readers;
        let (voids, places) = Voids::read(alloc, voids).map_err(Unrestored::Voids)?;
        let reading = take_in_log(rt, alloc, board, seat, changes, &places)?;
        check(rt, board, &reading.front().known_as(), least)?;
        let changes = reading.finish().map_err(Unrestored::Changes)?;
        let count = changes.len();
        Ok(Logs {
            changes,
            voids,
            count,
        })
    }
}
