//! The rules that the words of the command line ask for: when each is asked, and its verdict.
#![tactic(auto)]

mod answers;
mod rule;

pub use answers::{at_most, finishes_at_most, keeps, needs_key, refuse};
pub use rule::{Rule, rules_of};
