//! The items of a queue.
use up_events::Event;

/// The items of a queue: the events of a lane, and after the last one the end.
#[derive(Clone, Copy, Debug, PartialEq, Eq)]
pub enum Item {
    Event(Event),
    /// Nothing is put after it.
    End,
}
