//! Why a queue was not made, and why an item was not put.
use crate::item::Item;
use thiserror::Error;

/// Why a queue was not made.
#[derive(Clone, Copy, Debug, PartialEq, Eq, Error)]
pub enum QueueFault {
    /// It would hold nothing.
    #[error("a queue for no item")]
    ZeroCapacity,
    /// Memory for it ran out.
    #[error("out of memory")]
    NoMemory,
}

/// Why an item was not put.
#[derive(Clone, Copy, Debug, PartialEq, Eq, Error)]
pub enum PutFault {
    /// The queue may be full. The item comes back.
    #[error("the queue is full")]
    Full(Item),
}
