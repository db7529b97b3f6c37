//! How a conversation ends.

/// The most messages of a conversation.
pub const MAX_MESSAGES: u64 = 10_000;

/// How a conversation ended.
#[derive(Clone, Copy, Debug, PartialEq, Eq)]
pub enum Ended {
    /// The input was at its end, or an answer closed the conversation.
    Closed,
    /// The input ended, or a read failed, inside a body. An append was carried out with the bytes that came; the
    /// message has no answer.
    Cut,
    /// A read failed before a head was whole.
    ReadFailed,
    /// A write failed. Changes made before it stay.
    WriteFailed,
}
