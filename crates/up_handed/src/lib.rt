//! The number of events of a lane that all runs of a server handed over, on a disk, and a post-hook that continues
//! where earlier runs ended.
#![tactic(auto)]

mod continued;
mod continuing;
mod counted;
mod device;
mod fault;
mod file;
mod handed;
mod handed_to;
mod noting;
mod opened;
mod restarting;
mod withheld;

pub use continued::Continued;
pub use continuing::continue_each;
pub use counted::{Counted, counted_each};
pub use fault::HandedFault;
pub use file::open_handed;
pub use handed::{Handed, Refused};
pub use handed_to::HandedTo;
pub use noting::{EndedUpload, Endings, Noting};
pub use opened::Opened;
pub use restarting::restart;
pub use withheld::{Permission, Withheld, withhold_each};
