//! Why a row of the input cannot be read, or what went wrong after it.
use crate::text::EscapeFault;
use std::alloc::AllocError;
use thiserror::Error;
use up_events::NoMemory;
use up_machine::Refusal;

/// Why a row has none of the allowed forms, or what went wrong after it.
#[derive(Clone, Copy, Debug, PartialEq, Eq, Error)]
pub enum RowFault {
    #[error("no such mark")]
    Mark,
    #[error("a number is wanting")]
    Number,
    #[error("no such text")]
    Text,
    #[error("no such escape")]
    Escape,
    #[error("the book is not as it was")]
    Changed,
    #[error("the change is not the last of the journal")]
    NotLast,
    #[error("the plan had another response")]
    OtherPlan,
    #[error("refused")]
    Refused,
    #[error("out of memory")]
    Memory(#[from(alloc)] AllocError),
}

impl From<EscapeFault> for RowFault {
    fn from(fault: EscapeFault) -> Self {
        match fault {
            EscapeFault::Escape => RowFault::Escape,
            EscapeFault::Memory(error) => RowFault::Memory(error),
        }
    }
}

impl From<NoMemory> for RowFault {
    fn from(_: NoMemory) -> Self {
        RowFault::Memory(AllocError)
    }
}

impl From<Refusal> for RowFault {
    fn from(_: Refusal) -> Self {
        RowFault::Refused
    }
}
