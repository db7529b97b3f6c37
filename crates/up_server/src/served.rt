//! What came of a run.
use up_dispatch::{Ended, Report};

/// The report of a run, and how its conversation ended.
#[derive(Drop)]
pub struct Served<H> {
    pub report: Report<H>,
    pub ended: Ended,
}
