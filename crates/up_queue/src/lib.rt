//! A bounded queue from one thread to another, whose two ends know what went through it: what was put is what was
//! taken, followed by what the queue holds. A put never waits for a take, and a take never waits for a put.
#![tactic(auto)]

mod ends;
mod fault;
mod item;
mod line;
mod rule;

pub use ends::{PutEnd, TakeEnd, compare, lane_queue};
pub use fault::{PutFault, QueueFault};
pub use item::Item;
