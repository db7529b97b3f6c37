//! Boards whose changes are written to a store first, and boards that are restored from its logs.
ghost use Rattle.std.specs.Prelude.{◌≡◌, length};
ghost use Rattle.up_dispatch.specs.Free.{no_history};
ghost use Rattle.up_dispatch.specs.Parts.{IsNamed};
ghost use Rattle.up_events.specs.declared.limits.TheConstants.{MAX_UPLOAD_BYTES};
ghost use Rattle.up_headers.specs.Table.{FitsWithin};

use super::course::{Course, kept};
use super::disks::Files;
use super::tally::{Again, Tally};
use super::tasks::board_of;
use crate::logs::{Row, entries_of, reader_of};
use crate::requests::append;
use sqlite_disk::{Disk, Memory};
use std::alloc::{AllocError, Global};
use std::marker::Brand;
use std::process::Abort;
use std::sync::Wait;
use up_dispatch::{Board, BoardParts, Counts, Keeper, Naming, Seat, Seated, answer};
use up_events::{Accepted, Id, NoMemory};
use up_headers::Request;
use up_history::Chronicle;
use up_hooks::PreHooks;
use up_log::{LogFault, LogReader};
use up_machine::{Asked, Done, Refusal};
use up_places::{NoFiles, Nowhere};
use up_replay::{asked_of, fits};
use up_store::{Histories, Least, Store, Unrestored};
use up_tie::{Reading, Site};
use up_wire::{Output, WriteFailed, write_response};

/// The number of uploads that are compared.
const UPLOADS: u64 = 400;

/// The result of a change: the status and the change, or why it was refused.
pub type CommitResult = Result<(u16, Option<Accepted>), Refusal>;

/// The counts of a board, and its responses about each upload.
pub type Seen = (Counts, Vec<u8>);

/// Makes a change, and returns its result.
pub fn result_of<K: Keeper>(
    alloc: Global,
    keeper: &mut K,
    request: Request,
    id: Id,
    asked: &Asked,
) -> CommitResult
    requires { FitsWithin MAX_UPLOAD_BYTES request }
{
    let Done { response, change } = keeper.commit(alloc, request, id, asked)?;
    Ok((response.status, change))
}

/// Makes the changes of these rows.
pub fn change<K: Keeper, R: Abort>(
    rt: &R,
    alloc: Global,
    keeper: &mut K,
    rows: &[Row],
) -> Vec<CommitResult> {
    let mut told = Vec::new(alloc);
    for entry in entries_of(alloc, rows).expect(rt, "memory") {
        if !fits(&entry.request) {
            rt.panic("a request that is too long")
        }
        let asked = asked_of(entry.consent);
        let result = result_of(alloc, keeper, entry.request, entry.id, &asked);
        told.push(result).expect(rt, "memory");
    }
    told
}

/// Appends this byte to the upload 0 `times` times, while others append too, and returns the number of attempts.
fn append_each<K: Keeper>(
    alloc: Global,
    keeper: &mut K,
    byte: u8,
    times: u64,
) -> Result<u64, NoMemory> {
    let mut offset: u64 = 0;
    let mut put: u64 = 0;
    for count in 0..10_000u64 {
        if put == times {
            return Ok(count);
        }
        let request = append(alloc, Id::new(0), offset, &[byte])?;
        match result_of(alloc, keeper, request, Id::new(0), &Asked::AllowedFinish) {
            Ok(_) => put = put.saturating_add(1),
            Err(Refusal::WrongOffset) => {}
            Err(_) => return Ok(count),
        }
        offset = offset.saturating_add(1);
    }
    Ok(10_000)
}

/// The work from one seat: the changes of these rows, and then `times` times this byte for the upload 0.
#[derive(Drop)]
pub struct Job {
    pub rows: Vec<Row>,
    pub byte: u8,
    pub times: u64,
}

/// The job with only these rows.
pub fn job_of(alloc: Global, rows: &[Row]) -> Result<Job, AllocError> {
    Ok(Job {
        rows: Vec::from_slice(alloc, rows)?,
        byte: 0,
        times: 0,
    })
}

/// The results of the rows of a job, and the number of attempts for its bytes.
pub type Outcome = (Vec<CommitResult>, u64);

/// Does a job.
pub fn work<K: Keeper, R: Abort>(rt: &R, alloc: Global, keeper: &mut K, job: &Job) -> Outcome {
    let told = change(rt, alloc, keeper, &job.rows);
    let count = append_each(alloc, keeper, job.byte, job.times).expect(rt, "memory");
    (told, count)
}

/// Writes the response of a board to this request.
fn write_answer<K: Keeper, R: Wait>(
    rt: &R,
    alloc: Global,
    keeper: &mut K,
    request: Request,
    id: Id,
    sink: &mut Output<Vec<u8>>,
) -> Result<(), WriteFailed>
    requires { FitsWithin MAX_UPLOAD_BYTES request }
{
    let hooks = PreHooks::new(Vec::new(alloc));
    write_response(
        sink,
        &mut Nowhere::new(rt),
        &answer(alloc, keeper, &hooks, request, id),
        false,
        false,
    )
}

/// The counts of a board, and its responses to HEAD and GET of each upload.
pub fn seen<B: Naming, K: Keeper, R: Wait + Abort>(
    rt: &R,
    alloc: Global,
    board: &Board<B>,
    keeper: &mut K,
) -> Seen {
    let mut sink = Output::new(Vec::new(alloc));
    for number in 0..UPLOADS {
        let id = Id::new(u128::from(number));
        write_answer(rt, alloc, keeper, Request::Head(id), id, &mut sink).expect(rt, "a response");
        write_answer(rt, alloc, keeper, Request::Get(id), id, &mut sink).expect(rt, "a response");
    }
    (board.counts(rt), sink.into_inner())
}

/// The results of a job on a plain board with these parts, and the state of the board after it.
fn plain_of<B: Naming, R: Wait + Abort>(
    rt: &R,
    alloc: Global,
    parts: BoardParts,
    job: &Job,
) -> (Outcome, Seen)
    requires named { IsNamed B.name B.parts B.queue B.lanes parts }
    requires lanes { length parts.queues ≡ 2 }
    requires sized { B.max_size ≡ 1000 }
    requires free { B.history ≡ no_history }
{
    let (board, mut seat) = board_of::<B, R>(rt, alloc, parts);
    let mut keeper = Seated::new(rt, &board, &mut seat);
    let outcome = work(rt, alloc, &mut keeper, job);
    (outcome, seen(rt, alloc, &board, &mut keeper))
}

/// A store that a test uses. It is in a box, since the proof of a function takes longer if it has large values.
pub type Boxed<'a, D, J, K> = Box<Store<D, &'a Tally, J, K>, Global>;

/// A store on these disks that was not read yet, and who reads them.
pub type Unread<'a, D, J, K> = (Boxed<'a, D, J, K>, (Reading<D, NoFiles, J>, LogReader<D>));

/// A store on these disks that was not read yet, and who reads them.
pub fn unread_on<'a, D: Disk, J: Site, K: Chronicle>(
    alloc: Global,
    disks: (D, D),
    tally: &'a Tally,
    histories: Histories,
) -> Result<Unread<'a, D, J, K>, LogFault>
where
    D: Drop,
    requires written { histories.written ≡ J.history }
    requires drawn { histories.drawn ≡ K.history }
    requires nothing { J.premise → ⊥ }
{
    let changes = reader_of(alloc, disks.0)?;
    let voids = reader_of(alloc, disks.1)?;
    let (store, front) = Store::unread(alloc, tally, histories)?;
    Ok((
        Box::new(alloc, store)?,
        (Reading::new(changes, NoFiles, front), voids),
    ))
}

/// A log may have any number of entries and events.
pub const NOTHING: Least<'static> = Least {
    entries: 0,
    events: &[],
};

/// A store on these disks, whose changes are made again on a board.
pub fn store_on<'a, B: Naming, D: Disk, J: Site, K: Chronicle, R: Wait>(
    rt: &R,
    alloc: Global,
    board: &Board<B>,
    seat: &mut Seat<B>,
    disks: (D, D),
    tally: &'a Tally,
    histories: Histories,
) -> Result<Boxed<'a, D, J, K>, Unrestored>
where
    D: Drop,
    requires written { histories.written ≡ J.history }
    requires drawn { histories.drawn ≡ K.history }
    requires nothing { J.premise → ⊥ }
    requires same { J.history ≡ B.history }
{
    let (store, readers) = unread_on(alloc, disks, tally, histories).map_err(Unrestored::Changes)?;
    let logs = store.restore(rt, alloc, board, seat, readers, &NOTHING)?;
    store.open(rt, logs, tally.first());
    Ok(store)
}

/// A look at all uploads of a board.
pub struct Look;

impl<D: Again + Drop> Course<D> for Look {
    type Found = Seen;

    fn take<B: Naming, J: Site, K: Chronicle, P: Keeper, R: Wait + Abort>(
        &self,
        rt: &R,
        alloc: Global,
        board: &Board<B>,
        _store: &Store<D, &Tally, J, K>,
        keeper: &mut P,
    ) -> Seen {
        seen(rt, alloc, board, keeper)
    }
}

/// The results of a job on a plain board, and the state of the board after it.
pub fn plainly<R: Wait + Abort>(rt: &R, alloc: Global, job: &Job) -> (Outcome, Seen) {
    let parts = BoardParts::new(alloc, 2, 4).expect(rt, "memory");
    plain_of::<Brand, R>(rt, alloc, parts, job)
}

/// The state of a plain board after these changes.
pub fn standing<R: Wait + Abort>(rt: &R, alloc: Global, rows: &[Row]) -> Seen {
    plainly(rt, alloc, &job_of(alloc, rows).expect(rt, "memory")).1
}

/// The state of a board that is restored from the logs on these disks, and the logs.
pub fn restored<D: Again + Drop, R: Wait + Abort>(
    rt: &R,
    alloc: Global,
    disks: (D, D),
) -> (Seen, Files<D>) {
    let tally = Tally::new(alloc).expect(rt, "memory");
    kept(rt, alloc, disks, &tally, &Look)
}

/// Checks that these changes are there after a restart.
pub fn hold_again<R: Wait + Abort>(rt: &R, alloc: Global, disks: (Memory, Memory), rows: &[Row]) {
    let (seen, _) = restored(rt, alloc, disks);
    assert!(rt; seen == standing(rt, alloc, rows));
}
