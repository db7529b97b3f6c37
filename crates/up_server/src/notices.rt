//! Who is told whether connections can be accepted.
use std::{fmt, io};

/// What ran out, so that no connection can be accepted, with the system's code if there is one.
#[derive(Clone, Copy, Debug, PartialEq, Eq)]
pub enum Want {
    /// Descriptors of the process or of the system.
    Descriptors(i32),
    /// Memory of the system, for a socket.
    Memory(i32),
    /// A thread, or memory for one.
    Threads,
}

/// Whether connections can be accepted.
#[derive(Clone, Copy, Debug, PartialEq, Eq)]
pub enum Entrance {
    /// They are accepted as they arrive.
    Open,
    /// None can be accepted because something ran out. It is tried again.
    Wanting(Want),
    /// The listener is gone, with this code of the system. None is accepted any more.
    Gone(i32),
}

impl fmt::Display for Entrance {
    fn fmt<W: fmt::Write>(&self, f: &mut fmt::Formatter<W>) -> fmt::Result {
        match *self {
            Entrance::Open => f.write_str("connections are let in again"),
            Entrance::Wanting(Want::Threads) => {
                f.write_str("no connection can be let in: no thread can be started")
            }
            Entrance::Wanting(Want::Descriptors(code) | Want::Memory(code)) => {
                let why = io::Error::from_raw_os_error(code);
                write!(f, "no connection can be let in: {why}")
            }
            Entrance::Gone(code) => {
                let why = io::Error::from_raw_os_error(code);
                write!(f, "the listener is gone, and the run ends: {why}")
            }
        }
    }
}

/// Who is told whether connections can be accepted.
pub trait Notices {
    /// Takes the news. Returns whether nothing is left to be told. If something is, it is called again within about 100
    /// ms.
    fn tell(&self, entrance: Entrance) -> bool;
}

/// Tells nobody.
#[derive(Clone, Copy)]
pub struct Silent;

impl Notices for Silent {
    fn tell(&self, _entrance: Entrance) -> bool {
        true
    }
}
