//! Why the program failed.
use std::alloc::{AllocError, AllocFailed};
use std::io;
use std::process::ExitCode;
use thiserror::Error;
use up_handed::HandedFault;
use up_log::LogFault;
use up_server::ServerFault;
use up_words::WordsFault;

/// Why a file or the folder of a store can't be opened.
#[derive(Debug, Drop, Error)]
pub enum Unopened {
    /// The folder can't be made or listed.
    #[error("{0}")]
    Folder(io::Error),
    /// A log can't be opened.
    #[error("{0}")]
    Log(LogFault),
    /// The count of a lane can't be opened.
    #[error("{0}")]
    Count(HandedFault),
    /// The log leaves out more events of the lane than its count has.
    #[error("the count is less than the log leaves out")]
    Fewer,
    /// The file of this name was made after it.
    #[error("the file is missing or empty, but {beside:?} is there")]
    Missing { beside: String },
}

/// Why the program failed.
#[derive(Debug, Drop, Error)]
pub enum Fault {
    /// An argument can't be read as text.
    #[error("an argument is not UTF-8")]
    NoText,
    /// `clap` refused the arguments, or was asked for help.
    #[error(transparent)]
    Words(clap::Error),
    /// The URL of the hook server is none.
    #[error("--hooks-http takes http:// and a host")]
    HookUrl,
    /// A field that the hook server is to be told can't have this name.
    #[error("--hooks-http-forward-headers takes names of fields, with commas between")]
    HookFields,
    /// A hook doesn't have this name.
    #[error("--hooks-enabled-events takes names of hooks, with commas between")]
    HookNames,
    /// The server can't listen at the address.
    #[error("{fault} at {address:?}: {reason}", fault = ServerFault::Listen)]
    Listen { address: String, reason: io::Error },
    /// A file or the folder of the store can't be opened.
    #[error("cannot open the store at {path:?}: {reason}")]
    Store { path: String, reason: Unopened },
    /// The changes of the store could not be carried out again, so nothing was served. The reason was printed already.
    #[error("cannot read the store")]
    AlreadyReported,
    /// A run of the server failed.
    #[error(transparent)]
    Server(ServerFault),
}

impl From<WordsFault> for Fault {
    fn from(fault: WordsFault) -> Self {
        match fault {
            WordsFault::Refused(error) => Fault::Words(error),
            WordsFault::Memory => Fault::Server(ServerFault::Memory),
        }
    }
}

impl From<AllocError> for Fault {
    fn from(_: AllocError) -> Self {
        Fault::Server(ServerFault::Memory)
    }
}

impl<T: Drop> From<AllocFailed<T>> for Fault {
    fn from(_: AllocFailed<T>) -> Self {
        Fault::Server(ServerFault::Memory)
    }
}

/// A standard stream or the system's random bytes can't be used, or memory for them ran out.
impl From<io::Error> for Fault {
    fn from(_: io::Error) -> Self {
        Fault::Server(ServerFault::Memory)
    }
}

impl From<ServerFault> for Fault {
    fn from(fault: ServerFault) -> Self {
        Fault::Server(fault)
    }
}

impl Fault {
    /// Prints on standard error what failed, unless that was printed already. If standard error is closed, nobody is
    /// told.
    pub fn tell<R: Eprint>(&self, rt: &R) {
        let _ = match self {
            Fault::AlreadyReported => Ok(()),
            Fault::Words(error) => rt.eprint(error),
            fault => eprintln!(rt; "up_server: {fault}"),
        };
    }

    /// The exit status: 2 for words that can't be carried out, else 1.
    pub fn status(&self) -> ExitCode {
        match self {
            Fault::NoText
            | Fault::Words(_)
            | Fault::HookUrl
            | Fault::HookFields
            | Fault::HookNames => ExitCode::from(2),
            Fault::Listen { .. }
            | Fault::Store { .. }
            | Fault::AlreadyReported
            | Fault::Server(_) => { ExitCode::FAILURE }
        }
    }
}
