//! Changes that are written together.
ghost use Rattle.std.specs.Prelude.{◌≡◌, ◌++◌, List, length};
ghost use Rattle.up_log.specs.declared.entry.Entry.{Entry as Logged};

use crate::on_disk::OnDisk;
use std::marker::Model;
use up_history::{Chronicle, Front};
use up_log::{Entry, Spelled};

/// Changes that are written together: those with the next numbers from `first` on, in the order in which changes were
/// drawn, which is the history `K`. Contracts describe them as their entries and the first number.
#[derive(Drop)]
pub struct Batch<K: Chronicle> {
    changes: Vec<Spelled>,
    first: u64,
    front: Front<Entry, K>,
}

impl<K: Chronicle> Model for Batch<K> {
    ghost use Rattle.up_tie.specs.Ties.{Changes, HasFrom};

    ghost Value = { Changes };

    ghost view = { λ b. record { entries = b.changes.items; first = b.first } };

    ghost invariant = { λ b. HasFrom b.front b.first b.changes.items };
}

impl<K: Chronicle> Batch<K> {
    /// The changes that the front has from the number `first` on.
    pub fn new(changes: Vec<Spelled>, first: u64, front: Front<Entry, K>) -> Batch<K>
        requires drawn { (before : List Logged) × (after : List Logged)
            × (front ≡ before ++ (changes.items ++ after)) × (length before ≡ first) }
        ensures { result ≡ record { entries = changes.items; first = first } }
    {
        Batch {
            changes,
            first,
            front,
        }
    }

    /// The changes, already encoded.
    pub fn changes(&self) -> &[Spelled]
        ensures { result.now ≡ self.now.entries }
    {
        self.changes.as_slice()
    }

    /// The number of the first change.
    pub fn first(&self) -> u64
        ensures { result ≡ self.now.first }
    {
        self.first
    }

    /// How many changes there are.
    pub fn len(&self) -> usize
        ensures { result ≡ length self.now.entries }
    {
        self.changes.len()
    }

    /// The changes alone.
    pub fn into_changes(self) -> Vec<Spelled>
        ensures { result.items ≡ self.entries }
    {
        self.changes
    }

    /// The changes, which are now on the disk: they are the last entries of a front, from `place` on.
    pub(crate) fn on_disk<J: Chronicle>(&self, place: u64, entries: Front<Entry, J>) -> OnDisk<J, K>
        requires written { (before : List Logged)
            × (entries ≡ before ++ self.now.entries) × (length before ≡ place) }
        ensures { result ≡ record {
          place = place;
          number = self.now.first;
          count = length self.now.entries;
        } }
    {
        OnDisk {
            place,
            number: self.first,
            count: self.changes().len() as u64,
            entries,
            changes: self.front.again(),
        }
    }
}
