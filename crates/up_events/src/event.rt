//! What a request changed, and the events that report it.
ghost use Rattle.std.specs.Prelude.{◌≡◌, codes};

use crate::id::Id;

/// How an upload gets its bytes.
#[derive(Clone, Copy, Debug, PartialEq, Eq)]
pub enum Kind {
    /// By appends only.
    Plain,
    /// By appends only, and it is meant to become a part of final uploads (tus 1.0.0, Concatenation).
    Partial,
    /// From the parts that it joins: it is complete as soon as it is created (tus 1.0.0, Concatenation).
    Final,
}

/// An accepted change of one upload. A list of them is the history of all uploads.
#[derive(Clone, Copy, Debug, PartialEq, Eq)]
pub enum Accepted {
    /// The upload was created: a final one with all of its bytes, any other without bytes.
    Created {
        id: Id,
        /// The length of the complete upload, in bytes (`Upload-Length` of tus 1.0.0). `None` if it is declared later,
        /// which is never so for a final upload.
        length: Option<u64>,
        kind: Kind,
    },
    /// Bytes were appended to the upload, which is not a final one.
    Appended {
        id: Id,
        /// The number of bytes.
        count: u64,
    },
    /// The length of the upload was not known and was declared (tus 1.0.0, Creation: deferred length). Bytes were
    /// appended with it.
    Declared {
        id: Id,
        /// The length of the complete upload, in bytes.
        length: u64,
        /// The number of bytes that were appended. It may be 0.
        count: u64,
    },
    /// The upload was terminated. Its id stays known, and no change of it follows (tus 1.0.0, Termination).
    Terminated {
        id: Id,
    },
}

/// What an event reports about its upload.
#[derive(Clone, Copy, Debug, PartialEq, Eq)]
pub enum Hook {
    /// The upload was created.
    Create,
    /// Bytes were appended to the upload.
    Receive,
    /// The upload is complete: the offset is the length.
    Finish,
    /// The upload was terminated. This is its last event.
    Terminate,
}

/// One event of an upload.
#[derive(Clone, Copy, Debug, PartialEq, Eq)]
pub struct Event {
    /// The upload.
    pub id: Id,
    /// The index of the event among the events of its upload: 1, 2, 3 and so on.
    pub number: u64,
    pub hook: Hook,
    /// The number of bytes that the upload has after the change (`Upload-Offset` of tus 1.0.0).
    pub offset: u64,
    /// The length of the complete upload, in bytes, if it is known after the change.
    pub length: Option<u64>,
}

impl Hook {
    ghost use Rattle.up_events.specs.Names.{name_of};

    /// The name of the hook in the text of an event, such as `post-create`.
    pub fn name(&self) -> &'static str
        ensures { result.now ≡ name_of self.now }
    {
        match self {
            Hook::Create => "post-create",
            Hook::Receive => "post-receive",
            Hook::Finish => "post-finish",
            Hook::Terminate => "post-terminate",
        }
    }
}

impl Accepted {
    ghost use Rattle.up_events.specs.History.{id_of};

    /// The upload that the change belongs to.
    pub fn id(&self) -> Id
        ensures { result ≡ id_of self.now }
    {
        match *self {
            Accepted::Created { id, .. }
            | Accepted::Appended { id, .. }
            | Accepted::Declared { id, .. }
            | Accepted::Terminated { id } => id,
        }
    }
}
