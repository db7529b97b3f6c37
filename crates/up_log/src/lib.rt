//! A log of commits on a disk, from which a book can be restored after a restart or a crash.
#![tactic(auto)]

mod appending;
mod block;
mod device;
mod entries;
mod entry;
mod fault;
mod file;
mod heading;
mod reader;
mod reading;
mod rereading;
mod resuming;
mod setup;
mod spelled;
mod staging;
mod writing;

pub use appending::Log;
pub use entry::{Consent, Entry, place_of};
pub use fault::{LogFault, Unread};
pub use file::{open_device, open_file};
pub use reader::{LogReader, Refused};
pub use setup::Setup;
pub use spelled::Spelled;
