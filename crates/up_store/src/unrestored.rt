//! Why a store can't be restored.
use thiserror::Error;
use up_log::LogFault;
use up_replay::Unreplayed;

/// Why the changes of a store can't be carried out again.
#[derive(Clone, Copy, Debug, Error)]
pub enum Unrestored {
    /// The log of the changes can't be read.
    #[error("{0}")]
    Changes(LogFault),
    /// The log of the voids can't be read.
    #[error("{0}")]
    Voids(LogFault),
    /// An entry can't be carried out again.
    #[error("{0}")]
    Entry(Unreplayed),
    /// The log of the changes has fewer entries than the head that counts says.
    #[error("the log has {found} entries, and heads counts {least}")]
    Fewer {
        found: u64,
        least: u64,
    },
    /// Earlier runs handed over more events of a lane than there are in the log, with those that it leaves out.
    #[error("handed.{lane} counts {counted} events, and the log has {logged} of lane {lane}")]
    Lane {
        lane: u64,
        counted: u64,
        logged: u64,
    },
}

impl From<Unreplayed> for Unrestored {
    fn from(fault: Unreplayed) -> Self {
        Unrestored::Entry(fault)
    }
}
