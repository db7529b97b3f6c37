//! Restoring a book from the entries of a log.
#![tactic(auto)]

mod law;
mod replaying;
mod restoring;

pub use law::replays_begin_alike;
pub use replaying::{Unreplayed, asked_of, fits, replay};
pub use restoring::{Unrestored, restore};
