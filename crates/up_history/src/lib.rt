//! A history that exists only in proofs: one order of entries for all threads. They share a word that counts the
//! entries, and each of them knows a prefix of the history.
#![tactic(auto)]

mod chronicle;
mod front;
mod history;
mod receipt;
mod rule;
mod trail;

pub use chronicle::Chronicle;
pub use front::Front;
pub use history::{History, Opened};
pub use receipt::Receipt;
pub use trail::Trail;
