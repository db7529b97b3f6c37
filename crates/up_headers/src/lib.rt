//! From a message to a request of the tus protocol 1.0.0: the table of header checks in their order, metadata and
//! concatenations.
#![tactic(auto)]

mod checks;
mod concat;
mod creation;
mod fields;
mod header_fault;
mod law;
mod metadata;
mod metadata_fault;
mod patch;
mod place;
mod request;
mod verb;
mod words;

pub use checks::request_of;
pub use concat::concat_of;
pub use header_fault::HeaderFault;
pub use law::{concat_reads_once, metadata_reads_once};
pub use metadata::pairs_of;
pub use metadata_fault::MetadataFault;
pub use request::{NewUpload, NotDigits, Pairs, Patch, Request};
