//! Conversations whose changes are written to a log before they are made.
ghost use Rattle.std.specs.Prelude.{◌≡◌, [], List, IfOk, IsTrue};
ghost use Rattle.up_log.specs.Held.{AreHeld};
ghost use Rattle.up_log.specs.Logs.{IsReaderAt};
ghost use Rattle.up_log.specs.declared.entry.Entry.{Entry as Logged};
ghost use Rattle.up_hooks.specs.MayAnswer.{ClosuresMayAnswer};
ghost use Rattle.up_dispatch.specs.Answering.{Serves};
ghost use Rattle.up_dispatch.specs.Exchanges.{KeepsBorrows, stand_in};
ghost use Rattle.up_dispatch.specs.Keepers.{seat_state};
ghost use Rattle.up_dispatch.specs.Turn.{Converses, no_disk};
ghost use Rattle.up_dispatch.specs.Lists.{EachAt};
ghost use Rattle.up_places.specs.Places.{no_content};
ghost use Rattle.up_store.specs.Permits.{HasCounted, counted_in};
ghost use Rattle.up_store.specs.StoredCommits.{by_stored_seat};

use crate::ended::EndedUploads;
use crate::folder::Folder;
use crate::held::LogFile;
use crate::notices::StoreNotices;
use crate::permit::Permit;
use crate::restoring::Least;
use crate::shortening::Shortening;
use crate::store::{Histories, Store};
use crate::stored::Stored;
use sqlite_disk::Disk;
use std::alloc::{AllocError, Global};
use std::marker::{Send, Sync};
use std::sync::atomic::AtomicU64;
use std::sync::{Mutex, Wait};
use up_dispatch::{Board, Bodies, Ended, Exchange, Ids, Naming, Seat, Service, converse};
use up_handed::Counted;
use up_history::{Chronicle, Trail};
use up_hooks::PreHooks;
use up_log::{Entry, LogReader};
use up_places::NoFiles;
use up_tie::{Reading, Site};
use up_wire::{Sink, Source};

/// A store, from before its logs are read on. What is written to the log is the history `J`; the changes, in the order
/// in which they are drawn, are the history `K`.
#[derive(Drop)]
pub struct Keeping<D: Disk, N, F, J: Site, K: Chronicle> {
    /// The log of the changes, and that of the voids, until they are read.
    readers: Mutex<Option<(Reading<D, NoFiles, J>, LogReader<D>)>>,
    pub(crate) store: Store<D, N, J, K>,
    pub(crate) shortening: Shortening<D, F>,
    pub(crate) permit: Permit,
    /// 1 once nobody tends the store any more. Who tends it sleeps on this.
    pub(crate) is_over: AtomicU64,
}

impl<D: Disk, N, F, J: Site, K: Chronicle> Keeping<D, N, F, J, K> {
    /// Over the log of the changes and that of the voids, of which nothing is read yet, with what makes it shorter, and
    /// with what earlier runs counted of the events of each lane. The error is that memory ran out.
    pub fn new(
        alloc: Global,
        changes: LogReader<D>,
        voids: LogReader<D>,
        histories: Histories,
        notices: N,
        shortening: Shortening<D, F>,
        counted: Vec<Counted>,
    ) -> Result<Keeping<D, N, F, J, K>, AllocError>
    where
        D: Drop,
        N: Drop,
        F: Drop,
        requires written { histories.written ≡ J.history }
        requires drawn { histories.drawn ≡ K.history }
        requires reader { J.premise
            → (batches : List (List Logged)) × IsReaderAt D.Disk changes J.setup [] batches
            × AreHeld no_content batches }
        ensures { IfOk result (λ keeping. counted_in keeping.permit ≡ counted.items) }
    {
        let (store, history) = Store::unread(alloc, notices, histories)?;
        let reading = Reading::new(changes, NoFiles, history);
        Ok(Keeping {
            store,
            readers: Mutex::new(Some((reading, voids))),
            shortening,
            permit: Permit::new(counted),
            is_over: AtomicU64::new(0),
        })
    }

    /// The uploads that have ended, which whoever hands events over adds to.
    pub fn ended(&self) -> &EndedUploads {
        &self.shortening.ended
    }

    /// The permission to hand over events that earlier runs did not hand over. It is given once the logs were read, if
    /// they have all events that earlier runs counted.
    pub fn permit(&self) -> &Permit
        ensures { result.now ≡ self.now.permit }
    {
        &self.permit
    }
}

/// For the prover: what was lent and comes back is unchanged.
fn give_back<X>(_lent: &mut X)
    ensures { _lent.new ≡ _lent.old }
{}

/// Holds one conversation from a seat of the board. Each change is in the log before the board hears of it. Also
/// returns the entries of the log up to the last one that the board decided on here.
pub fn converse_stored<
    B: Naming,
    D: Disk + Drop,
    N: StoreNotices + LogFile<D>,
    J: Site,
    K: Chronicle,
    I: Ids,
    R: Source,
    W: Sink,
    T: Wait,
>(
    rt: &T,
    alloc: Global,
    board: &Board<B>,
    store: &Store<D, N, J, K>,
    seat: &mut Seat<B>,
    hooks: &PreHooks,
    exchange: &mut Exchange<'_, I, R, W>,
) -> (Ended, Trail<Entry, B>)
    requires same { J.history ≡ B.history }
    ensures served { Converses no_disk
        (Serves (by_stored_seat B.queue B.lanes B.max_size (ClosuresMayAnswer hooks.now)) I.draws)
        B.max_size
        (stand_in R.device W.device (seat_state seat.old []) exchange.old)
        (stand_in R.device W.device (seat_state seat.new result.1) exchange.new) result.0 }
    ensures borrows { KeepsBorrows exchange.old exchange.new }
{
    let max_size = board.max_size();
    let mut stored = Stored::new(rt, board, store, seat);
    let mut bodies = Bodies::in_memory(rt);
    let ended = converse(alloc, &mut stored, hooks, max_size, exchange, &mut bodies);
    let Stored { seat, known, .. } = stored;
    give_back(seat);
    (ended, known)
}

impl<
    D: Disk + Drop + Send,
    N: StoreNotices + LogFile<D> + Drop + Send + Sync,
    F: Folder<D> + Drop + Sync,
    J: Site + Send,
    K: Chronicle + Send,
> Service for Keeping<D, N, F, J, K> {
    ghost use Rattle.up_store.specs.StoredCommits.{StoredCommits};

    ghost history = { J.history };

    ghost commits = { StoredCommits };

    /// Carries out the changes of the log again, removes the logs that a switch to this one has left, and opens the
    /// store. If the log can't be read to its end, or doesn't have all events that earlier runs counted, nothing is
    /// removed, and the notices are told why.
    fn begin<B: Naming, T: Wait>(
        &self,
        rt: &T,
        alloc: Global,
        board: &Board<B>,
        seat: Seat<B>,
    ) -> (Seat<B>, bool)
        requires same { B.history ≡ J.history }
        ensures counted { IsTrue result.1 → (entries : List Logged)
            × EachAt (HasCounted B.lanes B.max_size entries) (counted_in self.now.permit) }
    {
        let mut seat = seat;
        let Some(readers) = self.readers.lock(rt).take() else {
            return (seat, false);
        };
        let Some((generation, entries)) = self.shortening.numbers(rt) else {
            return (seat, false);
        };
        let least = Least {
            entries,
            events: self.permit.counted(),
        };
        match self
            .store
            .restore(rt, alloc, board, &mut seat, readers, &least)
        {
            Ok(logs) => {
                let entries = logs.count;
                self.permit.give::<B, D, J>(&logs);
                self.shortening.tidy_up(rt, entries);
                self.store.open(rt, logs, generation);
                self.store.begin(rt, entries);
                (seat, true)
            }
            Err(why) => {
                self.store.notices.is_not_restored(generation, why);
                (seat, false)
            }
        }
    }

    fn converse<B: Naming, I: Ids, R: Source, W: Sink, T: Wait>(
        &self,
        rt: &T,
        alloc: Global,
        board: &Board<B>,
        seat: &mut Seat<B>,
        hooks: &PreHooks,
        exchange: &mut Exchange<'_, I, R, W>,
    ) -> (Ended, Trail<Entry, B>) {
        converse_stored(rt, alloc, board, &self.store, seat, hooks, exchange)
    }
}
