//! Limits of a server and of an upload.

/// The maximum number of lanes of a server.
pub const MAX_LANES: u64 = 16;

/// The maximum number of bytes of an upload: 2^30.
pub const MAX_UPLOAD_BYTES: u64 = 1 << 30;
