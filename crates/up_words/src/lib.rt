//! The words of the command line: the size of the server that they ask for, the rules that it enforces, and the
//! connections that it serves.
#![tactic(auto)]

mod command_line;
mod settings;

pub use command_line::{VERSION, WordsFault, words};
pub use settings::{HookWords, Serving, Settings, Words, limits_are_exact};
