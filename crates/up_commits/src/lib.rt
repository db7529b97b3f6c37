//! How far a book follows a log, entry by entry.
#![tactic(auto)]

mod followed;
mod law;

pub use followed::Followed;
pub use law::books_follow;
