//! A closure that is asked about the request of one connection, and waits until another connection got its response.
ghost use Rattle.std.specs.Prelude.{IsTrue};
ghost use Rattle.up_hooks.specs.Verdicts.{is_allowed_verdict};

use crate::clients::{hold_answers, listen};
use crate::gate::{Gate, HEAD, POST};
use crate::replaying::done;
use crate::same::expect_text;
use crate::serving::{reported, visits};
use std::alloc::Global;
use std::io::{Read, Write};
use std::marker::Sync;
use std::net::{TcpListener, TcpStream};
use std::process::Abort;
use std::sync::{Arc, Wait};
use std::thread;
use std::thread::Threads;
use up_hooks::{PreHook, PreHooks};
use up_machine::{Ask, Point, Verdict};
use up_server::Silent;
use up_words::Settings;

/// The report about the one upload.
static REPORT: &str = "\naccepted 1\nlane 0 drained 0\nlane 1 drained 1\n\
    00000000000000000000000000000001 1 post-create 0/1 done\n";

/// Sends a request once the closure was called, and returns the response.
fn asks_meanwhile(rt: &impl Abort, alloc: Global, mut stream: TcpStream, gate: &Gate) -> Vec<u8> {
    if !gate.is_called_in_time() {
        rt.panic("the closure was not called");
    }
    stream.write_all(HEAD).expect(rt, "a request");
    let mut answer = Vec::new(alloc);
    stream.read_to_end(&mut answer).expect(rt, "a response");
    gate.open();
    answer
}

/// Serves two connections with these closures. The second sends its request once the closure was called. Returns the
/// report, and the response to that request.
fn served<R: Threads + Wait + Eprint + Abort + Sync>(
    rt: &R,
    alloc: Global,
    hooks: PreHooks,
    listener: TcpListener,
    stream: TcpStream,
    gate: &Gate,
) -> (Vec<u8>, Vec<u8>) {
    let visits = visits(Some(2), 2, &Silent);
    let settings = Settings::default();
    let (report, told) = thread::join(
        rt,
        || reported(rt, alloc, hooks, done, &settings, listener, &visits),
        || asks_meanwhile(rt, alloc, stream, gate),
    );
    (report.expect(rt, "a report"), told)
}

/// Serves two connections, as above, and checks the report and the response to the request of the second.
fn hold_two(
    rt: &(impl Threads + Wait + Eprint + Abort + Sync),
    alloc: Global,
    hooks: PreHooks,
    listener: TcpListener,
    stream: TcpStream,
    gate: &Gate,
) {
    let (report, told) = served(rt, alloc, hooks, listener, stream, gate);
    assert!(rt; told.starts_with(b"HTTP/1.1 404 "));
    expect_text(rt, &report, REPORT);
}

/// Serves two connections with a closure that allows a creation once the second got its response, and checks what came
/// of it.
fn hold_gated(
    rt: &(impl Threads + Wait + Eprint + Abort + Sync),
    alloc: Global,
    listener: TcpListener,
    stream: TcpStream,
) {
    let gate = Arc::new(alloc, Gate::new()).expect(rt, "memory");
    let held = Arc::try_clone(&gate).expect(rt, "memory");
    let judge = move |_: &Ask| -> Verdict
        ensures { IsTrue (is_allowed_verdict result) }
    { held.judge() };
    let mut hooks = Vec::new(alloc);
    let judge = Box::new(alloc, judge).expect(rt, "memory");
    hooks
        .push(PreHook::new(Point::Create, judge))
        .expect(rt, "memory");
    hold_two(rt, alloc, PreHooks::new(hooks), listener, stream, &gate);
}

#[test]
fn a_closure_waits_for_another_connection(rt: HostRuntime) {
    let (listener, mut clients) = listen(&rt, rt.alloc(), &[POST]);
    let address = listener.local_addr().expect(&rt, "an address");
    let stream = TcpStream::connect(&rt, address).expect(&rt, "a connection");
    hold_gated(&rt, rt.alloc(), listener, stream);
    hold_answers(&rt, rt.alloc(), &mut clients, b"HTTP/1.1 201 ", b"");
}
