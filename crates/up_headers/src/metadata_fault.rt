//! Why a metadata text is not a list of pairs.
use std::alloc::{AllocError, AllocFailed};
use thiserror::Error;

/// Why a metadata text is not a list of pairs (tus 1.0.0, Upload-Metadata). The first pair at fault decides, and within
/// one pair the first of these faults.
#[derive(Clone, Copy, Debug, PartialEq, Eq, Error)]
pub enum MetadataFault {
    /// A pair without a key.
    #[error("empty key")]
    EmptyKey,
    /// A key that an earlier pair has too.
    #[error("key twice")]
    KeyTwice,
    /// A value that is not Base64 (RFC 4648, section 4).
    #[error("bad value")]
    BadValue,
    /// Memory for the pairs ran out.
    #[error("out of memory")]
    NoMemory,
}

impl From<AllocError> for MetadataFault {
    ghost use Rattle.std.specs.Prelude.{◌≡◌};
    ghost use Rattle.up_headers.specs.declared.metadata_fault.MetadataFault.TheVariants as Fault;

    ghost from_gives = { λ _ fault. fault ≡ Fault.NoMemory };

    fn from(_: AllocError) -> Self {
        MetadataFault::NoMemory
    }
}

impl<T: Drop> From<AllocFailed<T>> for MetadataFault {
    ghost use Rattle.std.specs.Prelude.{◌≡◌};
    ghost use Rattle.up_headers.specs.declared.metadata_fault.MetadataFault.TheVariants as Fault;

    ghost from_gives = { λ _ fault. fault ≡ Fault.NoMemory };

    fn from(_: AllocFailed<T>) -> Self {
        MetadataFault::NoMemory
    }
}
