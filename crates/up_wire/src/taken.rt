//! The caller's limits for a message, and the result of reading one.
use crate::wire_fault::WireFault;
use up_message::Message;

/// The caller's limits.
#[derive(Clone, Copy, PartialEq, Eq)]
pub struct Limits {
    /// The maximum number of bytes of a body.
    pub max_body: u64,
}

/// The result of reading a message.
#[derive(Drop)]
pub enum Taken {
    Message(Message),
    /// The input ended, or a read failed, inside the body. The message has the bytes of the body that arrived.
    Cut(Message),
    Fault {
        fault: WireFault,
        /// Whether the method is HEAD, if the head is whole.
        bare: bool,
    },
    /// The input ended before any byte of a message. Empty lines do not count.
    End,
}
