//! One connection.
ghost use Rattle.std.specs.Prelude.{◌≡◌};

use crate::connection_context::ConnectionContext;
use crate::ending::Ending;
use crate::patience::{Pace, Reading, Writing, milliseconds};
use std::alloc::Global;
use std::io::{self, BufReader, BufWriter, Read};
use std::net::{Shutdown, SocketAddr, TcpStream};
use std::os::fd::AsRawFd;
use std::sync::Wait;
use std::time::Duration;
use up_dispatch::{Ended, Exchange, Ids, Naming, Seat, Service, SharedIds};
use up_events::MAX_UPLOAD_BYTES;
use up_hooks::PreHooks;
use up_wire::{Input, Output};

/// The size in bytes of the buffer through which heads and small bodies are read. The bytes of larger bodies are read
/// straight to their places.
const READ_BUFFER: usize = 4096;

/// The size in bytes of the buffer through which answers are written. The bytes of a GET are written straight from
/// their places.
const WRITE_BUFFER: usize = 1024;

/// How many bytes are read and dropped at a time.
const DROPPED: usize = 8192;

/// How many milliseconds in all a connection that is being closed waits for the client's last bytes and its close.
const LINGERING: u64 = 2000;

/// How many times bytes are read and dropped of a connection that is being closed.
const MAX_DROPPED: usize = MAX_UPLOAD_BYTES as usize / DROPPED;

/// What the client of a connection sends and is sent, each through a buffer.
fn buffered<'a>(
    alloc: Global,
    stream: &'a TcpStream,
    pace: &'a Pace,
    ending: Option<&'a Ending>,
) -> io::Result<
    (
        Input<BufReader<Reading<'a>>>,
        Output<BufWriter<Writing<'a>>>,
    ),
> {
    let reading = Reading {
        stream,
        pace,
        ending,
    };
    let source = Input::new(BufReader::with_capacity(alloc, READ_BUFFER, reading)?);
    let writing = Writing { stream, pace };
    let sink = Output::new(BufWriter::with_capacity(alloc, WRITE_BUFFER, writing)?);
    Ok((source, sink))
}

/// The address of the client, if a closure sees it and the system knows it.
fn client_of(hooks: &PreHooks, stream: &TcpStream) -> Option<SocketAddr> {
    if hooks.see_requests() {
        stream.peer_addr().ok()
    } else {
        None
    }
}

/// Serves a connection from a seat. An error means that the connection can't be set up, or that memory ran out for its
/// buffers. Nothing was served then.
fn serve_stream<'x, B: Naming, I: Ids, S: Service, T: Wait>(
    rt: &'x T,
    alloc: Global,
    context: &'x ConnectionContext<'x, B, I>,
    hooks: &PreHooks,
    service: &S,
    seat: &mut Seat<B>,
    stream: &'x TcpStream,
) -> io::Result<Ended>
    requires same { B.history ≡ S.history }
{
    context.patience.set_on(stream)?;
    let pace = &Pace::new(context.patience);
    let (mut source, mut sink) = buffered(alloc, stream, pace, context.ending)?;
    let mut ids = SharedIds {
        rt,
        ids: &context.ids,
    };
    let mut exchange = Exchange {
        ids: &mut ids,
        source: &mut source,
        sink: &mut sink,
        client: client_of(hooks, stream),
    };
    let (ended, _known) = service.converse(rt, alloc, context.board, seat, hooks, &mut exchange);
    Ok(ended)
}

/// Closes a connection after its last answer. Bytes that the client has sent, or still sends, are read and dropped. If
/// a connection is closed with bytes unread, the system may drop the answer (RFC 9112, section 9.6). This is not
/// inlined, so that its buffer takes no room on the stack while the connection is served.
#[inline(never)]
fn close(stream: &TcpStream) -> io::Result<()> {
    stream.shutdown(Shutdown::Write)?;
    let mut dropped = [0; DROPPED];
    let mut unheard = stream;
    let begun = milliseconds();
    for _ in 0..MAX_DROPPED {
        let left = LINGERING.saturating_sub(milliseconds().saturating_sub(begun));
        if left == 0 {
            break;
        }
        stream.set_read_timeout(Some(Duration::from_millis(left)))?;
        if unheard.read(&mut dropped)? == 0 {
            break;
        }
    }
    Ok(())
}

/// Whether the client may still be receiving its last answer: the conversation was closed, or nothing more of it was
/// read since the run is over.
fn ends_in_order(ending: Option<&Ending>, ended: &io::Result<Ended>) -> bool {
    match ended {
        Ok(Ended::Closed) => true,
        Ok(Ended::ReadFailed | Ended::Cut) => match ending {
            Some(ending) => ending.is_over(),
            None => false,
        },
        _ => false,
    }
}

/// Serves a connection from a seat, which it takes and puts back, and closes the connection. If no seat is free, or if
/// the connection can't be set up, it is closed without an answer, and nothing changes for others.
pub fn serve_connection<B: Naming, I: Ids, S: Service, T: Wait>(
    rt: &T,
    alloc: Global,
    context: &ConnectionContext<'_, B, I>,
    hooks: &PreHooks,
    service: &S,
    stream: TcpStream,
)
    requires same { B.history ≡ S.history }
{
    if let Some(mut seat) = context.seats.pop(rt, context.board) {
        if let Some(ending) = context.ending {
            ending.begin(rt, stream.as_raw_fd());
        }
        let ended = serve_stream(&*rt, alloc, &*context, hooks, service, &mut seat, &stream);
        if let Some(ending) = context.ending {
            ending.end(rt, stream.as_raw_fd());
        }
        context.seats.put_back(rt, seat);
        if ends_in_order(context.ending, &ended) {
            let _ = close(&stream);
        }
    }
}
