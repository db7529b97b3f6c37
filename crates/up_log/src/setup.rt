//! The numbers that the entries of a log depend on.

/// The numbers of a server that its log depends on: with other numbers, the decisions about its entries would be
/// different. They are at the start of the file.
#[derive(Clone, Copy, PartialEq, Eq)]
pub struct Setup {
    /// The number of lanes that hand over events.
    pub lanes: u64,
    /// The maximum size of an upload, in bytes.
    pub max_size: u64,
}
