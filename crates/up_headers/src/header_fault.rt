//! Why a message asks for nothing, and the response to it.
ghost use Rattle.std.specs.Prelude.{◌≡◌};

use std::alloc::AllocError;
use thiserror::Error;

/// Why a message is not a request of the tus protocol.
#[derive(Clone, Copy, Debug, PartialEq, Eq, Error)]
pub enum HeaderFault {
    /// The version of the protocol is missing or is not 1.0.0 (tus 1.0.0, Tus-Resumable).
    #[error("version not supported")]
    Version,
    /// The target is neither the creation URL nor that of an upload (RFC 9110, section 15.5.5).
    #[error("no such path")]
    NoSuchPath,
    /// The target does not support the method (RFC 9110, section 15.5.6).
    #[error("method not allowed")]
    Method {
        /// Whether the target is that of an upload, and not the creation URL.
        of_upload: bool,
    },
    /// A field that the request reads is there twice (RFC 9110, section 5.3).
    #[error("field repeated")]
    Repeated,
    /// The creation of an upload that is not final, with neither a number as its length nor the statement that the
    /// length will be declared later, or with both (tus 1.0.0, Creation).
    #[error("bad length")]
    BadLength,
    /// The creation of an upload with more bytes than are allowed (tus 1.0.0, Creation).
    #[error("too long")]
    TooLong,
    /// An `Upload-Concat` that is neither `partial` nor `final;` and the URLs of uploads (tus 1.0.0, Upload-Concat).
    #[error("bad concatenation")]
    BadConcat,
    /// Metadata that is not a list of pairs (tus 1.0.0, Upload-Metadata).
    #[error("bad metadata")]
    BadMetadata,
    /// Memory for the request ran out.
    #[error("out of memory")]
    NoMemory,
}

impl From<AllocError> for HeaderFault {
    ghost use Rattle.up_headers.specs.declared.header_fault.HeaderFault.TheVariants as Fault;

    ghost from_gives = { λ _ fault. fault ≡ Fault.NoMemory };

    fn from(_: AllocError) -> Self {
        HeaderFault::NoMemory
    }
}

impl HeaderFault {
    ghost use Rattle.up_headers.specs.HeaderFaults.{header_fault_status, header_fault_line};

    /// The status code of the response (RFC 9110, section 15; for `Version` tus 1.0.0, Tus-Version).
    pub fn status(&self) -> u16
        ensures { result ≡ header_fault_status self.now }
    {
        match self {
            HeaderFault::Version => 412,
            HeaderFault::NoSuchPath => 404,
            HeaderFault::Method { .. } => 405,
            HeaderFault::TooLong => 413,
            HeaderFault::Repeated
            | HeaderFault::BadLength
            | HeaderFault::BadConcat
            | HeaderFault::BadMetadata => 400,
            HeaderFault::NoMemory => 503,
        }
    }

    /// The body of the response: a line with the number of the fault and its name.
    pub fn text(&self) -> &'static str
        ensures { result.now ≡ header_fault_line self.now }
    {
        match self {
            HeaderFault::Version => "10 Version\n",
            HeaderFault::NoSuchPath => "11 NoSuchPath\n",
            HeaderFault::Method { .. } => "12 Method\n",
            HeaderFault::Repeated => "13 Repeated\n",
            HeaderFault::BadLength => "14 BadLength\n",
            HeaderFault::TooLong => "15 TooLong\n",
            HeaderFault::BadConcat => "16 BadConcat\n",
            HeaderFault::BadMetadata => "17 BadMetadata\n",
            HeaderFault::NoMemory => "18 NoMemory\n",
        }
    }
}
