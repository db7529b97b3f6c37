//! Clients that use sockets of this machine.
use std::alloc::Global;
use std::io::{Read, Write};
use std::net::{Net, Shutdown, SocketAddr, TcpListener, TcpStream};
use std::process::Abort;

/// Connects, sends the request, and sends no more. The response can then be read.
fn ask<R: Net<Stream = TcpStream> + Abort>(rt: &R, address: SocketAddr, asked: &[u8]) -> TcpStream {
    let mut stream = TcpStream::connect(rt, address).expect(rt, "a connection");
    stream.write_all(asked).expect(rt, "a request");
    stream.shutdown(Shutdown::Write).expect(rt, "its end");
    stream
}

/// Connects once for each request, and sends it.
fn ask_each<R: Net<Stream = TcpStream> + Abort>(
    rt: &R,
    alloc: Global,
    address: SocketAddr,
    requests: &[&[u8]],
) -> Vec<TcpStream> {
    let mut clients = Vec::new(alloc);
    for asked in requests {
        clients.push(ask(rt, address, asked)).expect(rt, "memory");
    }
    clients
}

/// A new listener, and the connections on which these requests were sent to it, each on one of its own.
pub fn listen<R: Net<Listener = TcpListener, Stream = TcpStream> + Abort>(
    rt: &R,
    alloc: Global,
    requests: &[&[u8]],
) -> (TcpListener, Vec<TcpStream>) {
    let listener = TcpListener::bind(rt, "127.0.0.1:0").expect(rt, "a listener");
    let address = listener.local_addr().expect(rt, "an address");
    let clients = ask_each(rt, alloc, address, requests);
    (listener, clients)
}

/// Reads the response to its end, and checks its start and its end.
fn hold_answer(rt: &impl Abort, alloc: Global, client: &mut TcpStream, start: &[u8], end: &[u8]) {
    let mut answer = Vec::new(alloc);
    client.read_to_end(&mut answer).expect(rt, "a response");
    assert!(rt; answer.starts_with(start));
    assert!(rt; answer.ends_with(end));
}

/// Reads the response on each of the connections to its end, and checks its start and its end.
pub fn hold_answers(
    rt: &impl Abort,
    alloc: Global,
    clients: &mut [TcpStream],
    start: &[u8],
    end: &[u8],
) {
    for client in clients {
        hold_answer(rt, alloc, client, start, end);
    }
}
