//! The invariant of the shared word between any two steps, and what a thread learns from a step.
use logbook::{Gain, Plain, Play, Rule};

/// The rule of a history: its word counts the entries.
pub struct Counted;

impl<E> Rule<Option<E>, u64> for Counted {
    ghost use Rattle.std.specs.Prelude.{[]};
    ghost use base.Fml.{ftrue};
    ghost use Rattle.up_history.specs.Rules.{IsCounted};

    ghost holds = { λ cells log. IsCounted cells log };

    ghost first = { [] };

    ghost hinted = { λ count log. Unit {0} };

    ghost shows = { λ log. [] };

    ghost keeps = { λ names log. ftrue };

    ghost moves = { λ ask before after answer. Unit {0} };
}

/// Threads exchange nothing in a step.
pub struct Nothing;

impl<E> Gain<Option<E>, u64> for Nothing {
    ghost use base.Fml.{ftrue};

    ghost after = { λ names about answer. ftrue };
}

/// A step that adds an entry.
pub struct Add;

impl<E> Play<Option<E>, u64> for Add {
    ghost use Rattle.up_history.specs.Rules.{Adds};

    ghost then = { Adds };
}

impl<E> Plain<E, Option<E>, u64> for Add {
    ghost use Rattle.std.specs.Prelude.{Some, None};

    ghost ask = { λ entry. Some entry };

    ghost state = { λ entry. None };
}
