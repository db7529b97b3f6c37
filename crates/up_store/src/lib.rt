//! A store: each change is written to a log on the disk before a board makes it.
#![tactic(auto)]

mod ended;
mod folder;
mod full;
mod held;
mod holding;
mod keeping;
mod line;
mod notices;
mod permit;
mod removal;
mod restoring;
mod shortening;
mod shorter;
mod store;
mod stored;
mod tending;
mod told;
mod unrestored;
mod voids;

pub use ended::EndedUploads;
pub use folder::Folder;
pub use held::LogFile;
pub use keeping::{Keeping, converse_stored};
pub use line::{Line, Next};
pub use notices::StoreNotices;
pub use permit::Permit;
pub use restoring::{Least, Logs};
pub use shortening::{Current, Shortening};
pub use store::{Histories, Store};
pub use stored::Stored;
pub use told::{Storing, Told};
pub use unrestored::Unrestored;
pub use voids::Voids;
