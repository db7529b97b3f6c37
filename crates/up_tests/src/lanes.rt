//! What is not proved about lanes: that queues are made and items pass through, that steps succeed, how often a lane is
//! refilled and sleeps, and the use of two threads.
pub mod parts;
mod queues;
mod running;
mod stepping;
