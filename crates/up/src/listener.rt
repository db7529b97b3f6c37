//! The listener of a server.
use crate::fault::Fault;
use std::io;
use std::net::{Net, TcpListener, TcpStream};
use std::os::fd::AsRawFd;
use up_server::ServerFault;
use up_words::Serving;

/// How many connections may wait for the server to accept them; std asks for 128.
const BACKLOG: i32 = 4096;

/// Listens at the address, and prints it on standard error, with the port that the system picked if it is port 0. The
/// error says why the server can't listen there.
fn listen_at<R: Net<Listener = TcpListener, Stream = TcpStream> + Eprint>(
    rt: &R,
    address: &str,
) -> io::Result<TcpListener> {
    let listener = TcpListener::bind(rt, address)?;
    let _ = libc::net::listen(listener.as_raw_fd(), BACKLOG);
    let bound = listener.local_addr()?;
    let _ = eprintln!(rt; "up_server: listening on {bound}");
    Ok(listener)
}

/// Listens at the address that the arguments give. The error says why the server can't listen there.
pub fn listen<R: Net<Listener = TcpListener, Stream = TcpStream> + Eprint>(
    rt: &R,
    serving: &Serving,
) -> Result<TcpListener, Fault> {
    match listen_at(rt, serving.address.as_str()) {
        Ok(listener) => Ok(listener),
        Err(reason) => match serving.address.clone() {
            Ok(address) => Err(Fault::Listen { address, reason }),
            Err(_) => Err(Fault::Server(ServerFault::Memory)),
        },
    }
}
