//! The counts of a board.
use up_events::MAX_LANES;

/// The most lanes that a board has.
pub(crate) const LANES: usize = MAX_LANES as usize;

/// The counts of a board at one moment.
#[derive(Clone, Copy, Debug, PartialEq, Eq)]
pub struct Counts {
    /// The number of uploads.
    pub uploads: u64,
    /// The number of bytes that these uploads have in all.
    pub bytes: u64,
    /// The number of changes that were accepted.
    pub changes: u64,
    /// The number of lanes, from 1 to `MAX_LANES`.
    pub lanes: u64,
    /// How many events each lane has yet to take. The first lane is at place 0. The places after the last lane are 0.
    pub waiting: [u64; LANES],
}
