//! Where the bodies of a conversation are that aren't in memory.
use std::sync::Wait;
use up_places::Nowhere;

/// What a conversation reads bodies from that are not in memory, and what takes bodies as they arrive.
#[derive(Drop)]
pub struct Bodies<S, P> {
    pub shelf: S,
    pub spool: P,
}

impl<'a, R: Wait> Bodies<Nowhere<'a, R>, Nowhere<'a, R>> {
    /// All bodies are in memory.
    pub fn in_memory(rt: &'a R) -> Self {
        Bodies {
            shelf: Nowhere::new(rt),
            spool: Nowhere::new(rt),
        }
    }
}
