//! Files for the bodies of a store: a head, and then blocks, each with a checksum.
#![tactic(auto)]

mod block;
mod body_folder;
mod body_shelf;
mod body_spool;
mod data_file;
mod fault;
mod files;
mod head;
mod host;
mod open_file;
mod reader;
mod record;
mod refused;
mod writer;

pub use block::block_len;
pub use body_folder::{BodyFolder, BodyNotices};
pub use body_shelf::BodyShelf;
pub use body_spool::BodySpool;
pub use data_file::DataFile;
pub use fault::{BlockFault, OpenFault};
pub use files::{BodyFault, BodyFiles};
pub use head::Head;
pub use host::{BodyFile, HostFile, make_body_file, open_body_file};
pub use open_file::OpenFile;
pub use reader::BlockReader;
pub use refused::Refused;
pub use writer::BlockWriter;
