//! Many connections at a time, each in a thread that serves it alone.
ghost use Rattle.std.specs.Prelude.{◌≡◌, ◌≤◌, IfSome};

use crate::connection_context::ConnectionContext;
use crate::connection_limit::ConnectionLimit;
use crate::ending::{Ending, NOTHING};
use crate::gate::{Failed, Gate};
use crate::notices::{Entrance, Notices, Want};
use crate::patience::Patience;
use crate::pool::Pool;
use crate::seats::Seats;
use crate::visit::serve_connection;
use crate::watch::Watch;
use std::alloc::{AllocError, Global};
use std::marker::{Send, Sync};
use std::net::{TcpListener, TcpStream};
use std::sync::{Mutex, Wait};
use std::thread;
use std::thread::{Builder, Scope, Threads};
use up_dispatch::{Board, Ids, Naming, Seat, Service};
use up_hooks::PreHooks;

/// The size of the stack of a connection's thread, in bytes.
const STACK: usize = 1 << 18;

/// Which connections are served, and how.
#[derive(Drop)]
pub struct Visits<'a, N, S> {
    /// How many are served. `None` sets no limit.
    pub connections: Option<u64>,
    /// How many may be open at a time, at least 1.
    pub open: u64,
    /// How long a connection waits for its client.
    pub patience: Patience,
    /// What counts the open ones, if the status of the server is reported.
    pub watch: Option<&'a Watch>,
    /// What ends the run in order, if anything but the number of connections ends it.
    pub ending: Option<&'a Ending>,
    /// Who is told when none can be accepted.
    pub notices: &'a N,
    /// How their conversations are held.
    pub service: &'a S,
}

/// Serves a connection, and then others as they are handed over. The limit counts each out when it has ended.
fn serve_in_turn<B: Naming, I: Ids, S: Service, T: Wait>(
    rt: &T,
    alloc: Global,
    context: &ConnectionContext<'_, B, I>,
    hooks: &PreHooks,
    service: &S,
    first: TcpStream,
)
    requires same { B.history ≡ S.history }
{
    let mut stream = first;
    for _ in rt.forever() {
        if let Some(watch) = context.watch {
            watch.begin();
        }
        serve_connection(rt, alloc, context, hooks, service, stream);
        if let Some(watch) = context.watch {
            watch.end();
        }
        context.limit.release(rt);
        match context.pool.next(rt) {
            Some(next) => stream = next,
            None => break,
        }
    }
}

/// Where connections are served, once they are let in. A thread is started over any such place, so that what is shown
/// there is not about what the connections share.
trait Hall: Sync {
    ghost use Rattle.std.specs.Prelude.{◌≡◌};
    ghost use Rattle.logbook.specs.Pages.{Book};

    /// The history that the changes made there follow.
    ghost history: { Book };

    /// Serves a connection, and then others as they are handed over.
    fn serve<S: Service, T: Wait>(
        &self,
        rt: &T,
        alloc: Global,
        hooks: &PreHooks,
        service: &S,
        first: TcpStream,
    )
        requires same { history ≡ S.history };
}

impl<B: Naming + Send + Sync, I: Ids + Send> Hall for ConnectionContext<'_, B, I> {
    ghost history = { B.history };

    fn serve<S: Service, T: Wait>(
        &self,
        rt: &T,
        alloc: Global,
        hooks: &PreHooks,
        service: &S,
        first: TcpStream,
    ) {
        serve_in_turn(rt, alloc, self, hooks, service, first);
    }
}

/// Starts a thread that serves a connection, and then others that are handed over. If none can be started, the
/// connection is closed, and that is the error.
fn start<'s, E, H: Hall + 's, S: Service + Sync + 's, T: Wait + Sync + 's>(
    scope: &Scope<'s, E>,
    rt: &'s T,
    alloc: Global,
    hall: &'s H,
    hooks: &'s PreHooks,
    service: &'s S,
    stream: TcpStream,
) -> Result<(), Failed>
    requires same { H.history ≡ S.history }
{
    let visit = move ||
        requires same { H.history ≡ S.history }
    {
        hall.serve(rt, alloc, hooks, service, stream);
    };
    match Builder::new().stack_size(STACK).spawn_scoped(scope, visit) {
        Ok(_) => Ok(()),
        Err(_) => Err(Failed::Lasting(Entrance::Wanting(Want::Threads))),
    }
}

/// Hands a connection to a thread that waits for one. If none does, starts a thread for it, which then takes others
/// that are handed over. If no thread can be started, the connection is closed, and that is the error.
fn let_in<
    's,
    E,
    B: Naming + Send + Sync + 's,
    I: Ids + Send + 's,
    S: Service + Sync + 's,
    T: Wait + Sync + 's,
>(
    scope: &Scope<'s, E>,
    rt: &'s T,
    alloc: Global,
    context: &'s ConnectionContext<'s, B, I>,
    hooks: &'s PreHooks,
    service: &'s S,
    stream: TcpStream,
) -> Result<(), Failed>
    requires same { B.history ≡ S.history }
{
    match context.pool.hand(rt, stream) {
        Some(stream) => start(scope, rt, alloc, context, hooks, service, stream),
        None => Ok(()),
    }
}

/// Waits until fewer than `most` connections are open, opens one, and returns how many are open then. `None` if the run
/// ends first.
fn acquire<B: Naming, I, T: Wait>(
    rt: &T,
    context: &ConnectionContext<'_, B, I>,
    most: u64,
) -> Option<u64>
    ensures { IfSome result (λ count. 1 ≤ count) }
{
    let Some(ending) = context.ending else {
        return Some(context.limit.acquire(rt, most));
    };
    for _ in rt.forever() {
        if !ending.goes_on(rt, context.board) {
            return None;
        }
        if let Some(open_count) = context.limit.try_acquire(rt, most) {
            return Some(open_count);
        }
        context.limit.back_off(rt, most);
        ending.look();
    }
    unreachable!()
}

/// For a run with an ending: waits until every connection has ended. If the run ends first, only what has arrived is
/// read from any of them, and those that are still open when the patience is over are closed.
fn see_out<B: Naming, I, T: Wait>(rt: &T, context: &ConnectionContext<'_, B, I>) {
    let Some(ending) = context.ending else {
        return;
    };
    for _ in rt.forever() {
        if context.limit.is_empty(rt) {
            return;
        }
        if !ending.goes_on(rt, context.board) {
            break;
        }
        ending.wait(NOTHING);
    }
    ending.shut(rt);
    if ending.has_limit() {
        await_last(rt, context, ending);
        ending.cut(rt);
    }
}

/// Waits until every connection has ended, or the patience is over.
fn await_last<B: Naming, I, T: Wait>(
    rt: &T,
    context: &ConnectionContext<'_, B, I>,
    ending: &Ending,
) {
    for _ in rt.forever() {
        if context.limit.is_empty(rt) || ending.is_late() {
            break;
        }
        ending.wait(NOTHING);
    }
}

/// Counts out a connection that was not let in, and tells why. Returns whether no more are accepted.
fn is_last<B: Naming, I, N: Notices, T: Wait>(
    rt: &T,
    context: &ConnectionContext<'_, B, I>,
    gate: &mut Gate<'_, N>,
    open_count: u64,
    came: Result<(), Failed>,
) -> bool
    requires { 1 ≤ open_count }
{
    match came {
        Ok(()) => {
            gate.open();
            false
        }
        Err(Failed::Passing) => {
            context.limit.release(rt);
            false
        }
        Err(Failed::Over) => {
            gate.shut();
            context.limit.release(rt);
            true
        }
        Err(Failed::Lasting(entrance)) => {
            let is_told = gate.tell(entrance);
            context.limit.release_and_back_off(rt, open_count);
            is_told && matches!(entrance, Entrance::Gone(_))
        }
    }
}

/// Accepts connections, and starts serving each. An accept that fails, and a connection for which no thread can be
/// started, count as connections that have ended. If something ran out, the next accept waits until a connection has
/// ended, for at most 100 ms. No more are accepted if the listener is gone or the run ends.
fn accept_all<
    's,
    E,
    B: Naming + Send + Sync + 's,
    I: Ids + Send + 's,
    N: Notices,
    S: Service + Sync + 's,
    T: Wait + Sync + 's,
>(
    scope: &Scope<'s, E>,
    rt: &'s T,
    alloc: Global,
    context: &'s ConnectionContext<'s, B, I>,
    hooks: &'s PreHooks,
    listener: &TcpListener,
    visits: &Visits<'s, N, S>,
)
    requires same { B.history ≡ S.history }
{
    let mut gate = Gate::new(listener, visits.notices, context.ending.is_some());
    for _ in 0..visits.connections.unwrap_or(u64::MAX) {
        let Some(open_count) = acquire(rt, context, visits.open) else {
            gate.shut();
            break;
        };
        let came = match gate.accept(rt, context) {
            Ok(stream) => let_in(scope, rt, alloc, context, hooks, visits.service, stream),
            Err(failed) => Err(failed),
        };
        if is_last(rt, context, &mut gate, open_count, came) {
            break;
        }
    }
    gate.leave();
    context.pool.close(rt);
    see_out(rt, context);
}

/// Accepts connections in a scope of threads, and returns when the last one has ended.
fn serve_in<
    'x,
    B: Naming + Send + Sync,
    I: Ids + Send,
    N: Notices,
    S: Service + Sync,
    T: Threads + Wait + Sync,
>(
    rt: &'x T,
    alloc: Global,
    context: &'x ConnectionContext<'x, B, I>,
    hooks: &'x PreHooks,
    listener: &'x TcpListener,
    visits: &'x Visits<'x, N, S>,
)
    requires same { B.history ≡ S.history }
{
    thread::scope(
        thread::scope_env(),
        rt,
        |scope|
            requires same { B.history ≡ S.history }
        { accept_all(scope, rt, alloc, context, hooks, listener, visits) },
    );
}

/// Makes the board ready for the first conversation. Returns whether it is ready. It isn't if there is no seat for it.
fn is_ready<B: Naming, I, S: Service, T: Wait>(
    rt: &T,
    alloc: Global,
    context: &ConnectionContext<'_, B, I>,
    service: &S,
) -> bool
    requires same { B.history ≡ S.history }
{
    let Some(seat) = context.seats.pop(rt, context.board) else {
        return false;
    };
    let (seat, is_ready) = service.begin(rt, alloc, context.board, seat);
    context.seats.put_back(rt, seat);
    is_ready
}

/// Serves the connections of a listener, each from a seat of the board and in a thread of its own. Returns all seats
/// after the last connection has ended. If the service can't make the board ready, no connection is accepted.
/// An accept that fails, and a connection for which no thread can be started, count as connections that have ended. If
/// descriptors, memory or threads run out, the next accept is tried after 100 ms, or when a connection has ended,
/// whichever is first. If the listener is gone, no more connections are accepted, as if all had been served. The error
/// is that memory ran out at the start, so nothing was accepted.
pub fn serve_connections<
    B: Naming + Send + Sync,
    I: Ids + Send + Drop,
    N: Notices,
    S: Service + Sync,
    T: Threads + Wait + Sync,
>(
    rt: &T,
    alloc: Global,
    board: &Board<B>,
    hooks: &PreHooks,
    ids: I,
    listener: &TcpListener,
    visits: &Visits<'_, N, S>,
) -> Result<Vec<Seat<B>>, AllocError>
    requires same { B.history ≡ S.history }
{
    let pool = Pool::new(alloc)?;
    let seats = Seats::new(alloc, visits.open)?;
    let context = ConnectionContext {
        board,
        limit: ConnectionLimit::new(),
        pool,
        patience: visits.patience,
        watch: visits.watch,
        ending: visits.ending,
        ids: Mutex::new(ids),
        seats,
    };
    if is_ready(rt, alloc, &context, visits.service) {
        serve_in(rt, alloc, &context, hooks, listener, visits);
    }
    Ok(context.seats.into_inner())
}
