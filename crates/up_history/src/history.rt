//! The word that threads share.
ghost use Rattle.std.specs.Prelude.{◌≡◌, []};
ghost use Rattle.up_history.specs.Rules.{word_of};

use crate::chronicle::Chronicle;
use crate::front::Front;
use crate::rule::Counted;
use logbook::{Seen, Start, Word};
use std::marker::{Model, PhantomData};

/// An empty history that has no identity yet. Contracts describe it as the identity that it will have.
#[derive(Drop)]
pub struct Opened<E> {
    word: Word<Option<E>, u64, Counted>,
    seen: Seen<Option<E>, u64, Counted>,
}

impl<E> Model for Opened<E> {
    ghost use Rattle.std.specs.Prelude.{◌≡◌, []};
    ghost use Rattle.logbook.specs.Pages.{Book};
    ghost use Rattle.up_history.specs.Rules.{word_of};

    ghost Value = { Book };

    ghost view = { λ o. o.seen.book };

    ghost invariant = { λ o. (o.seen.log ≡ []) × (o.word ≡ word_of o.seen.book) };
}

impl<E> Opened<E> {
    /// A new history. Takes no memory.
    pub fn new() -> Opened<E> {
        let (seen, mut pen, _other) = Seen::open(Start::alone(), 0, 0);
        Opened {
            word: Word::tracked(0, &mut pen),
            seen,
        }
    }

    /// The history with its identity, and the front that has seen nothing.
    pub fn named<J: Chronicle>(self) -> (History<E, J>, Front<E, J>)
        requires { self ≡ J.history }
        ensures { result.1 ≡ [] }
    {
        let Opened { word, seen } = self;
        let history = History {
            word,
            of: PhantomData,
        };
        let front = Front {
            count: 0,
            seen,
            of: PhantomData,
        };
        (history, front)
    }
}

/// The part of a history that all threads share: the word that counts its entries.
#[derive(Drop)]
pub struct History<E, J: Chronicle> {
    pub(crate) word: Word<Option<E>, u64, Counted>,
    of: PhantomData<J>,
    ghost word_is: { word ≡ word_of J.history },
}
