//! Lanes. A lane takes the events of its uploads from a queue, one after another, and hands them to its post-hook, in
//! the thread that runs the lane.
#![tactic(auto)]

mod known;
mod lane;
mod lane_end;
mod refill;

pub use lane::{Lane, StepEnd};
pub use lane_end::{How, LaneEnd};
pub use refill::Refill;
