//! A run of the server over a store.
ghost use Rattle.std.specs.Prelude.{◌≡◌, [], All, List, length, vec_len};
ghost use Rattle.up_log.specs.Held.{AreHeld};
ghost use Rattle.up_log.specs.Logs.{IsReaderAt};
ghost use Rattle.up_log.specs.declared.entry.Entry.{Entry as Logged};
ghost use Rattle.up_places.specs.Places.{no_content};

use crate::fault::Fault;
use crate::running::{Arrivals, Beside, run_on, visits_of};
use crate::store_files::{OpenStore, StoreFiles};
use crate::store_folder::{EndedNotes, StoreFile, StoreFolder};
use crate::store_lines::StoreLines;
use sqlite_disk::Disk;
use std::io::Write;
use std::marker::{Brand, Send, Sync};
use std::random::RandomSource;
use std::sync::Wait;
use std::thread;
use std::thread::Threads;
use std::time::Clock;
use up_handed::{Opened, continue_each, counted_each, withhold_each};
use up_history::Chronicle;
use up_server::{EventLines, ServerFault, Shown, line_couriers};
use up_store::{EndedUploads, Folder, Histories, Keeping, LogFile, Shortening, StoreNotices};
use up_tie::Site;

/// How many bytes a log has, at the least, that is made shorter: 64 MiB.
const LEAST_LOG: u64 = 1 << 26;

/// Serves what the listener accepts. Changes are written to logs before they are made, and a thread tends the store.
fn run_kept<
    'x,
    H: Shown + Drop,
    D: Disk + Drop + Send + 'x,
    N: StoreNotices + LogFile<D> + Drop + Send + Sync + 'x,
    F: Folder<D> + Drop + Sync + 'x,
    J: Site + Send + 'x,
    K: Chronicle + Send + 'x,
    R: Print + Eprint + AllocGlobal + Clock + RandomSource + Threads + Wait + Sync,
>(
    rt: &R,
    beside: &'x Beside<'x, R>,
    arrivals: Arrivals,
    post_hooks: Vec<H>,
    keeping: &'x Keeping<D, N, F, J, K>,
) -> Result<(), Fault>
    requires one_for_each { length post_hooks.items ≡ beside.now.settings.lanes }
    requires new { All (λ h. H.is_sound h × (H.handed h ≡ [])) post_hooks.items }
{
    let Some(visits) = visits_of(beside, keeping) else {
        return Ok(());
    };
    thread::scope(
        thread::scope_env(),
        rt,
        move |scope| -> Result<(), Fault>
            requires one_for_each { length post_hooks.items ≡ beside.now.settings.lanes }
            requires new { All (λ h. H.is_sound h × (H.handed h ≡ [])) post_hooks.items }
        {
            if scope.spawn(move || keeping.tend(rt, rt.alloc())).is_err() {
                return Err(Fault::Server(ServerFault::Memory));
            }
            let ended = run_on(rt, beside, &visits, arrivals, post_hooks);
            keeping.stop_tending();
            ended
        },
    )
}

/// How a run ended whose store could not be read, which was reported: only if memory ran out, too, that is to be
/// reported.
fn after_unread(served: Result<(), Fault>) -> Result<(), Fault> {
    match served {
        Err(Fault::Server(ServerFault::Memory)) => served,
        _ => Err(Fault::AlreadyReported),
    }
}

/// Serves what the listener accepts, over a store. Once the log was read, the post-hooks continue where earlier runs
/// ended.
fn run_continued<
    'x,
    H: Shown + Drop,
    D: Disk + Drop + Send + 'x,
    N: StoreNotices + LogFile<D> + Drop + Send + Sync + 'x,
    F: Folder<D> + Drop + Sync + 'x,
    J: Site + Send + 'x,
    K: Chronicle + Send + 'x,
    R: Print + Eprint + AllocGlobal + Clock + RandomSource + Threads + Wait + Sync,
>(
    rt: &R,
    beside: &'x Beside<'x, R>,
    arrivals: Arrivals,
    post_hooks: Vec<H>,
    counts: Vec<Opened<D>>,
    keeping: &'x Keeping<D, N, F, J, K>,
) -> Result<(), Fault>
    requires one_for_each { length post_hooks.items ≡ beside.now.settings.lanes }
    requires one_each { vec_len counts ≡ beside.now.settings.lanes }
    requires new { All (λ h. H.is_sound h × (H.handed h ≡ [])) post_hooks.items }
{
    let withheld = withhold_each(rt.alloc(), post_hooks, keeping.permit())?;
    let notes = EndedNotes::new(rt, keeping.ended());
    match continue_each(rt.alloc(), withheld, counts, notes) {
        Ok(continued) => run_kept(rt, beside, arrivals, continued, keeping),
        Err(_) => Err(Fault::Server(ServerFault::Memory)),
    }
}

/// Serves what the listener accepts, over a store, once its histories have names.
fn run_named<
    'x,
    J: Site + Send + 'x,
    K: Chronicle + Send + 'x,
    H: Shown + Drop,
    R: Print + Eprint + AllocGlobal + Clock + RandomSource + Threads + Wait + Sync,
>(
    rt: &R,
    beside: &'x Beside<'x, R>,
    arrivals: Arrivals,
    post_hooks: Vec<H>,
    store: OpenStore<'x>,
    lines: &'x StoreLines<'x, R>,
    histories: Histories,
) -> Result<(), Fault>
    requires written { histories.written ≡ J.history }
    requires drawn { histories.drawn ≡ K.history }
    requires reader { J.premise → (batches : List (List Logged))
        × IsReaderAt ⟦<StoreFile as Disk>⟧ store.files.changes J.setup [] batches
        × AreHeld no_content batches }
    requires one_for_each { length post_hooks.items ≡ beside.now.settings.lanes }
    requires same { store.files.settings.lanes ≡ beside.now.settings.lanes }
    requires new { All (λ h. H.is_sound h × (H.handed h ≡ [])) post_hooks.items }
{
    let OpenStore { folder, files } = store;
    let StoreFiles {
        settings,
        current,
        changes,
        voids,
        counts,
    } = files;
    let ended = EndedUploads::new(rt.alloc());
    let shortening = Shortening::new(current, ended, folder, settings.lanes, LEAST_LOG);
    let counted = counted_each(rt.alloc(), counts.as_slice())?;
    let keeping: Keeping<_, _, _, J, K> = Keeping::new(
        rt.alloc(),
        changes,
        voids,
        histories,
        lines,
        shortening,
        counted,
    )?;
    run_continued(rt, beside, arrivals, post_hooks, counts, &keeping)
}

/// Serves what the listener accepts, over a store, with these post-hooks.
pub fn run_stored<
    'x,
    H: Shown + Drop,
    R: Print + Eprint + AllocGlobal + Clock + RandomSource + Threads + Wait + Sync + 'x,
>(
    rt: &'x R,
    beside: &'x Beside<'x, R>,
    arrivals: Arrivals,
    post_hooks: Vec<H>,
    store: OpenStore<'x>,
) -> Result<(), Fault>
    requires same { store.files.settings.lanes ≡ beside.now.settings.lanes }
    requires one_for_each { length post_hooks.items ≡ beside.now.settings.lanes }
    requires new { All (λ h. H.is_sound h × (H.handed h ≡ [])) post_hooks.items }
{
    let lines = StoreLines::new(rt, &store.folder)?;
    let histories = Histories::new();
    let served = run_named::<Brand, Brand, _, _>(
        rt, beside, arrivals, post_hooks, store, &lines, histories,
    );
    if lines.is_unread() {
        return after_unread(served);
    }
    served
}

/// Serves what the listener accepts, over a store. The post-hooks write each event as a line, if there are event lines,
/// and an event counts as handed over once its line is written.
pub fn run_lined<
    'x,
    W: Write + Drop + Send + 'x,
    R: Print + Eprint + AllocGlobal + Clock + RandomSource + Threads + Wait + Sync + 'x,
>(
    rt: &'x R,
    beside: &'x Beside<'x, R>,
    arrivals: Arrivals,
    event_lines: Option<&'x EventLines<W>>,
    store: OpenStore<'x>,
) -> Result<(), Fault>
    requires same { store.files.settings.lanes ≡ beside.now.settings.lanes }
{
    match line_couriers(rt, rt.alloc(), beside.settings.lanes, event_lines) {
        Ok(couriers) => run_stored(rt, beside, arrivals, couriers, store),
        Err(_) => Err(Fault::Server(ServerFault::Memory)),
    }
}
