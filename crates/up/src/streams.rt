//! Standard streams that are closed when the program starts.
use libc::net::POLLNVAL;
use libc::types::pollfd;
use std::fs::OpenOptions;
use std::io;
use std::os::fd::IntoRawFd;

/// The device that is empty, and drops what it is given.
const NULL: &str = "/dev/null";

/// Whether no file is open under this descriptor.
fn is_closed(fd: i32) -> bool {
    let mut asked = [pollfd {
        fd,
        events: 0,
        revents: 0,
    }];
    let _ = libc::net::poll(&mut asked, 0);
    asked[0].revents & POLLNVAL != 0
}

/// Opens the null device under each descriptor of a standard stream that is closed. The system gives a new file the
/// least descriptor that is free, so without this a file or a socket would get that of a standard stream, and would be
/// sent what is written there. The error is that the null device can't be opened.
pub fn open_closed_streams(rt: &HostRuntime) -> io::Result<()> {
    for fd in libc::STDIN_FILENO..=libc::STDERR_FILENO {
        if is_closed(fd) {
            let null = OpenOptions::new().read(true).write(true).open(rt, NULL)?;
            let _stays_open = null.into_raw_fd();
        }
    }
    Ok(())
}
