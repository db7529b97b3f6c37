//! Laws about books that follow a log.
ghost use Rattle.up_commits.specs.Follows.{BooksFollow, BooksPassOver, ClosedBooksFollow, NewBooksFollow};

use up_replay::replays_begin_alike;

/// A new book follows no entries. If an entry is carried out in an open book, the changed book follows one more entry.
/// If an entry is not carried out, the unchanged book follows one more. A closed book follows the same entries as
/// before.
pub fn books_follow()
    ensures new { NewBooksFollow }
    ensures closed { ClosedBooksFollow }
    ensures carried { BooksFollow }
    ensures passed { BooksPassOver }
{
    // For the prover: a law, which does nothing when it runs.
    replays_begin_alike();
}
