//! The identity of a history.
use std::marker::Brand;

/// The identity of a history. Each call of a program chooses it, so types with the same `Chronicle` are about the same
/// history.
pub trait Chronicle {
    ghost use Rattle.logbook.specs.Pages.{Book};

    ghost history: { Book };
}

impl Chronicle for Brand {
    ghost history = { record { number = 0; log_name = 0; cells_name = 0 } };
}
