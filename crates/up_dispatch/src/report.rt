//! What the end of a board reports.
use crate::naming::Naming;
use crate::seat::Seat;
use thiserror::Error;
use up_events::Changes;
use up_hooks::PostHook;
use up_lanes::{How, LaneEnd};

/// Why a board was not finished.
#[derive(Clone, Copy, Debug, PartialEq, Eq, Error)]
pub enum FinishFault {
    /// The seats that came back made fewer changes than were accepted.
    #[error("a seat is missing")]
    SeatsOut,
    /// The lanes are not all there, each once and in ascending order.
    #[error("the lanes are not all there, each once and in order")]
    LanesOut,
    /// Memory for the report ran out.
    #[error("out of memory")]
    NoMemory,
}

/// A board that was not finished, with the reason: everything that was given comes back.
#[derive(Drop)]
pub struct Unfinished<T, B: Naming, H: PostHook> {
    pub fault: FinishFault,
    pub board: T,
    pub seats: Vec<Seat<B>>,
    pub lanes: Vec<LaneEnd<H>>,
}

/// The report of a lane: what it handed over.
#[derive(Drop)]
pub struct LaneReport<H> {
    /// The lane. The first lane is 0.
    pub lane: u64,
    pub hook: H,
    pub how: How,
    /// How many events of the lane's log were not handed over.
    pub left: u64,
}

/// The accepted changes in their order, kept or only counted, and for each lane, in the order of the lanes, what it
/// handed over.
#[derive(Drop)]
pub struct Report<H> {
    pub accepted: Changes,
    pub lanes: Vec<LaneReport<H>>,
}
