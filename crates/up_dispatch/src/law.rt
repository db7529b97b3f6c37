//! The limits in the code are those of the definitions.
ghost use Rattle.std.specs.Prelude.{◌≡◌};
ghost use Rattle.up_dispatch.specs.Limits.{max_messages, max_seats};

use crate::ended::MAX_MESSAGES;
use crate::parts::MAX_SEATS;

/// For the prover: the limits in the code are those that the definitions name. Does nothing.
pub fn limits_are_exact()
    ensures seats { MAX_SEATS ≡ max_seats }
    ensures messages { MAX_MESSAGES ≡ max_messages }
{}
