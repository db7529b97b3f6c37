//! What ties a log's bytes, and the order in which changes were drawn, to histories.
#![tactic(auto)]

mod batch;
mod log_history;
mod on_disk;
mod reading;
mod site;
mod written;

pub use batch::Batch;
pub use log_history::{LogHistory, NewHistory};
pub use on_disk::OnDisk;
pub use reading::Reading;
pub use site::Site;
pub use written::Written;
