//! Where bytes in data files begin.

/// Where bytes in data files begin: the number of a file, and a byte of it.
#[derive(Clone, Copy, Debug, PartialEq, Eq)]
pub struct Position {
    pub file: u64,
    pub at: u64,
}
