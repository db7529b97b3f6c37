//! A seat of a board whose changes are written to a log before they are made.
ghost use Rattle.std.specs.Prelude.{◌≡◌, ◌++◌, ◌∷◌, [], true, IfNone, IfOk, IfSome, Err, Some};
ghost use mathlib.Core.List.{IsPrefix};
ghost use Rattle.up_headers.specs.Table.{FitsWithin};
ghost use Rattle.up_machine.specs.Decision.{is_refusal};
ghost use Rattle.up_machine.specs.declared.refusal.Refusal.TheVariants.{NoMemory};
ghost use Rattle.up_replay.specs.Replay.{asked_of};
ghost use Rattle.up_dispatch.specs.Keepers.{seat_state};
ghost use Rattle.up_dispatch.specs.Tied.{CommitsAfter};

use crate::held::LogFile;
use crate::notices::StoreNotices;
use crate::store::Store;
use sqlite_disk::Disk;
use std::alloc::{AllocError, Global};
use std::sync::Wait;
use up_dispatch::{Board, Keeper, Naming, Seat};
use up_events::{Id, MAX_UPLOAD_BYTES};
use up_headers::Request;
use up_history::{Chronicle, Receipt, Trail};
use up_log::{Consent, Entry, Spelled, place_of};
use up_machine::{Asked, Done, Plan, Refusal};
use up_tie::Site;

/// How many times at most a removal is written: once among other changes, and then among removals alone, unless all
/// changes are drawn again in between.
const MAX_TRIES: u32 = 3;

/// A board, through one of its seats, and a log. Each change is on the disk before the board makes it. The board
/// follows the history of what was written to the log.
#[derive(Drop)]
pub struct Stored<'a, B: Naming, D: Disk, N, J: Site, K: Chronicle, R: Wait> {
    rt: &'a R,
    board: &'a Board<B>,
    store: &'a Store<D, N, J, K>,
    pub(crate) seat: &'a mut Seat<B>,
    /// The entries of the history up to the last one that the board decided on here.
    pub(crate) known: Trail<Entry, B>,
    ghost same: { J.history ≡ B.history },
}

/// What the closures answered. `None` if one of them refuses.
fn consent_of(asked: &Asked) -> Option<Consent>
    ensures said { IfSome result (λ consent. asked_of consent ≡ asked.now) }
    ensures refused { IfNone result (is_refusal asked.now ≡ true) }
{
    match asked {
        Asked::Skipped => Some(Consent::Skipped),
        Asked::Allowed => Some(Consent::Allowed),
        Asked::AllowedFinish => Some(Consent::AllowedFinish),
        Asked::Refused { .. } => None,
    }
}

/// The answer to a change. If the board did not decide on it, the answer is that memory ran out.
fn answer_of(decided: Option<Result<Done, Refusal>>) -> Result<Done, Refusal>
    ensures taken { IfSome decided (λ answer. result ≡ answer) }
    ensures refused { IfNone decided (result ≡ Err NoMemory) }
{
    match decided {
        Some(answer) => answer,
        None => Err(Refusal::NoMemory),
    }
}

/// Has the board decide on the entry of a receipt, if that comes after all known entries. Then it is known too. `None`
/// if the board does not decide on it; nothing has changed then.
fn decide<B: Naming, R: Wait>(
    rt: &R,
    alloc: Global,
    board: &Board<B>,
    seat: &mut Seat<B>,
    known: &mut Trail<Entry, B>,
    receipt: &Receipt<Entry, B>,
    entry: Entry,
) -> Option<Result<Done, Refusal>>
    requires bounded { FitsWithin MAX_UPLOAD_BYTES entry.request }
    requires claims { receipt.now.entry ≡ Some entry }
    ensures known { IfSome result (λ r. IsPrefix known.old receipt.now.before
        × (known.new ≡ receipt.now.before ++ entry ∷ [])) }
    ensures some { IfSome result (λ r. CommitsAfter B.queue B.lanes B.max_size
        receipt.now.before seat.old entry seat.new r) }
    ensures none { IfNone result ((seat.new ≡ seat.old) × (known.new ≡ known.old)) }
{
    // For the prover: turns come in the order of the log, so it always does.
    if !known.is_before(receipt) {
        return None;
    }
    let decided = board.commit_at(rt, alloc, seat, receipt, entry)?;
    *known = Trail::up_to(receipt);
    Some(decided)
}

impl<
    'a,
    B: Naming,
    D: Disk + Drop,
    N: StoreNotices + LogFile<D>,
    J: Site,
    K: Chronicle,
    R: Wait,
> Stored<'a, B, D, N, J, K, R> {
    /// Borrows the seat.
    pub fn new(
        rt: &'a R,
        board: &'a Board<B>,
        store: &'a Store<D, N, J, K>,
        seat: &'a mut Seat<B>,
    ) -> Stored<'a, B, D, N, J, K, R>
        requires same { J.history ≡ B.history }
        ensures state { ⟦<Stored<'a, B, D, N, J, K, R> as Keeper>⟧.state result
            ≡ seat_state seat.old [] }
        ensures lender { ⟦<Stored<'a, B, D, N, J, K, R> as Keeper>⟧.lender result
            ≡ seat.entry.ghost_name }
    {
        Stored {
            rt,
            board,
            store,
            seat,
            known: Trail::new(),
        }
    }

    /// Writes a change and waits for its turn. Returns a receipt for its entry if it is on the disk and may be made.
    /// The error is that memory ran out, that no change is made any more, or that only removals are; it has no turn
    /// then.
    fn write(&self, alloc: Global, entry: &Entry) -> Result<Option<Receipt<Entry, J>>, AllocError>
        ensures { IfOk result (λ r. IfSome r (λ receipt. receipt.entry ≡ Some entry.now)) }
    {
        let change = Spelled::new(alloc, entry)?;
        let drawn = self.store.draw(self.rt, change, entry)?;
        Ok(self.store.await_turn(self.rt, alloc, &drawn))
    }

    /// As `write`, but if there is no receipt its turn is over. If there is no room for a removal, only removals are
    /// drawn from then on, and it is tried again.
    fn keep(&self, alloc: Global, entry: &Entry) -> Result<Option<Receipt<Entry, J>>, AllocError>
        ensures { IfOk result (λ r. IfSome r (λ receipt. receipt.entry ≡ Some entry.now)) }
    {
        for _ in 0..MAX_TRIES {
            let receipt = self.write(alloc, entry)?;
            if receipt.is_some() || !self.store.end_lost_turn(self.rt, entry) {
                return Ok(receipt);
            }
        }
        Ok(None)
    }
}

impl<B: Naming, D: Disk + Drop, N: StoreNotices + LogFile<D>, J: Site, K: Chronicle, R: Wait> Keeper
    for Stored<'_, B, D, N, J, K, R> {
    ghost use Rattle.std.specs.Prelude.{◌≡◌};
    ghost use Rattle.up_dispatch.specs.Keepers.{ConversationPlans, SeatState, seat_state};
    ghost use Rattle.up_store.specs.StoredCommits.{StoredCommits};

    ghost State = { SeatState };

    ghost state = { λ k. seat_state k.seat.now k.known };

    ghost lender = { λ k. k.seat.ghost_name };

    ghost plans = { ConversationPlans B.queue B.lanes B.max_size };

    ghost commits = { StoredCommits B.queue B.lanes B.max_size };

    fn plan(&mut self, alloc: Global, request: &Request) -> Result<Plan, Refusal> {
        self.board.plan(self.rt, alloc, self.seat, request)
    }

    fn commit(
        &mut self,
        alloc: Global,
        request: Request,
        id: Id,
        asked: &Asked,
    ) -> Result<Done, Refusal> {
        let Some(consent) = consent_of(asked) else {
            return self
                .board
                .commit(self.rt, alloc, self.seat, request, id, asked);
        };
        let entry = Entry {
            id,
            consent,
            place: place_of(&request),
            request,
        };
        let Ok(Some(receipt)) = self.keep(alloc, &entry) else {
            return Err(Refusal::NoMemory);
        };
        let receipt: Receipt<Entry, B> = receipt.known_as();
        let decided = decide(
            self.rt,
            alloc,
            self.board,
            self.seat,
            &mut self.known,
            &receipt,
            entry,
        );
        let answer = answer_of(decided);
        if matches!(answer, Err(Refusal::NoMemory | Refusal::Closed)) {
            self.store.note_void(self.rt);
        }
        self.store.end_turn(self.rt);
        answer
    }
}
