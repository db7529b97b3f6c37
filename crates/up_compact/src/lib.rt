//! A shorter log of the same uploads: what it may leave out, how it is written, and how it becomes the current log.
#![tactic(auto)]

mod head;
mod heads;
mod joining;
mod law;
mod survey;
mod writing;

pub use head::Head;
pub use heads::{Heads, last_head_holds};
pub use joining::Joining;
pub use law::{ended_are_left_out, shorter_logs_define_the_rest};
pub use survey::Survey;
pub use writing::{LeftOut, Progress, add_staying, catch_up, is_left_out};
