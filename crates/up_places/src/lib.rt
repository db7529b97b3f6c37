//! Bytes of bodies that are not in memory: where they are, what reads them, and what takes them as they arrive.
#![tactic(auto)]

mod contents;
mod nowhere;
mod place;
mod position;
mod shelf;
mod spool;

pub use contents::{Contents, NoFiles, NotThere};
pub use nowhere::Nowhere;
pub use place::Place;
pub use position::Position;
pub use shelf::{BLOCK, ReadFailed, Shelf};
pub use spool::{PutFailed, Spool};
