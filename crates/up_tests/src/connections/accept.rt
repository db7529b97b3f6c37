//! Connections through sockets of this machine.
ghost use Rattle.std.specs.Prelude.{◌≡◌, length};
ghost use Rattle.up_dispatch.specs.Parts.{IsNamed};

use super::seats::changes;
use crate::clients::{hold_answers, listen};
use crate::same::expect_same;
use crate::serving::visits;
use std::alloc::Global;
use std::cell::Cell;
use std::marker::{Brand, Send, Sync};
use std::net::TcpListener;
use std::os::fd::AsRawFd;
use std::process::Abort;
use std::sync::Wait;
use std::thread::Threads;
use up_dispatch::{AtOnce, Board, BoardParts, Counting, Naming, Service};
use up_hooks::PreHooks;
use up_server::{Entrance, Notices, Silent, Visits, serve_connections};

static ASKED: &[u8] = b"POST /files/ HTTP/1.1\r\nHost: a\r\nTus-Resumable: 1.0.0\r\n\
    Upload-Length: 5\r\nConnection: close\r\n\r\n";

/// The state of letting connections in, as it was last reported.
#[derive(Drop)]
struct Last(Cell<Option<Entrance>>);

impl Notices for Last {
    fn tell(&self, entrance: Entrance) -> bool {
        self.0.set(Some(entrance));
        true
    }
}

/// Serves connections with a new board, and returns for each seat the number of changes that were made from it.
fn counts<B: Naming + Send + Sync, N: Notices, T: Threads + Wait + Abort + Sync>(
    rt: &T,
    alloc: Global,
    parts: BoardParts,
    listener: &TcpListener,
    visits: &Visits<'_, N, AtOnce>,
) -> Vec<u64>
    requires named { IsNamed B.name B.parts B.queue B.lanes parts }
    requires lanes { length parts.queues ≡ 1 }
    requires sized { B.max_size ≡ 1024 }
    requires same { B.history ≡ ⟦<AtOnce as Service>⟧.history }
{
    let (board, _takes) = Board::<B>::new(alloc, parts, 1_024).expect(rt, "memory");
    let hooks = PreHooks::new(Vec::new(alloc));
    let ids = Counting::new();
    let seats = serve_connections(rt, alloc, &board, &hooks, ids, listener, visits).expect(
        rt, "seats",
    );
    changes(alloc, &seats).expect(rt, "memory")
}

/// Serves connections with a board of one lane, and checks the number of changes from each seat.
fn hold_counts<N: Notices, T: Threads + Wait + Abort + Sync>(
    rt: &T,
    alloc: Global,
    listener: &TcpListener,
    visits: &Visits<'_, N, AtOnce>,
    wanted: &[u64],
) {
    let parts = BoardParts::new(alloc, 1, 8).expect(rt, "memory");
    let made = counts::<Brand, _, _>(rt, alloc, parts, listener, visits);
    expect_same(rt, &made.as_slice(), &wanted);
}

#[test]
fn serves_three_from_one_seat(rt: HostRuntime) {
    let (listener, mut clients) = listen(&rt, rt.alloc(), &[ASKED; 3]);
    hold_counts(
        &rt,
        rt.alloc(),
        &listener,
        &visits(Some(3), 1, &Silent),
        &[3],
    );
    hold_answers(
        &rt,
        rt.alloc(),
        &mut clients,
        b"HTTP/1.1 201 Created\r\n",
        b"\r\nConnection: close\r\n\r\n",
    );
}

#[test]
fn ends_where_the_listener_is_gone(rt: HostRuntime) {
    let listener = TcpListener::bind(&rt, "127.0.0.1:0").expect(&rt, "a listener");
    let status = libc::net::shutdown(listener.as_raw_fd(), libc::net::SHUT_RDWR);
    expect_same(&rt, &status, &0);
    let last = Last(Cell::new(None));
    hold_counts(&rt, rt.alloc(), &listener, &visits(None, 2, &last), &[0]);
    expect_same(&rt, &last.0.get(), &Some(Entrance::Gone(libc::EINVAL)));
}
