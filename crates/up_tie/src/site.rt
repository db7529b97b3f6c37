//! The identity of a log.
use std::marker::Brand;
use up_history::Chronicle;

/// The history of what is written to a log, and the numbers that the log depends on. Each call of a program chooses it,
/// so all values with the same `Site` are about the same log.
pub trait Site: Chronicle {
    ghost use Rattle.up_log.specs.declared.setup.Setup.{Setup};

    ghost setup: { Setup };

    // The premise of all facts about the log, such as that its file was the log of such a server when it was opened.
    ghost premise: { Type 0 };
}

impl Site for Brand {
    ghost setup = { record { lanes = 0; max_size = 0 } };

    ghost premise = { ⊥ };
}
