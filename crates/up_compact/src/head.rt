//! Which log is the current one.
ghost use Rattle.std.specs.Prelude.{◌≡◌, ◌++◌, ◌∷◌, [], IfOk, OnOk};
ghost use Rattle.up_compact.specs.Heads.{batch_of, first_head, head_of, ids_of, entry_with_number};

use std::alloc::{AllocError, Global};
use up_events::Id;
use up_log::{Entry, LogFault, Spelled};
use up_message::Sequence;

/// The current log, of those that were written one after another, and how it continues the one before.
#[derive(Drop)]
pub struct Head {
    /// The number of logs that were written before it.
    pub generation: u64,
    /// The number of entries that it had when it became the current one.
    pub entries: u64,
    /// The number of events that it leaves out of each lane, including those that were left out earlier. They were all
    /// handed over.
    pub left_out: Sequence<u64>,
}

/// An entry that asks for nothing, with this number as its id.
fn entry_of(number: u64) -> Entry
    ensures { result ≡ entry_with_number number }
{
    Entry::nothing(Id::new(u128::from(number)))
}

/// Adds the entry with this number to a batch.
fn push_number(alloc: Global, batch: &mut Vec<Spelled>, number: u64) -> Result<(), AllocError>
    ensures { OnOk result (batch.new.items ≡ batch.old.items ++ entry_with_number number ∷ []) }
{
    let spelled = Spelled::new(alloc, &entry_of(number))?;
    batch.push(spelled)?;
    Ok(())
}

/// The ids of entries, as numbers below 2^64.
fn numbers_of(alloc: Global, entries: &[Entry]) -> Result<Vec<u64>, LogFault>
    ensures { IfOk result (λ numbers. numbers.items ≡ ids_of entries.now) }
{
    let mut numbers = Vec::new(alloc);
    for entry in entries {
        let number = entry.id.number();
        if number > u128::from(u64::MAX) {
            return Err(LogFault::NoHead);
        }
        numbers.push(number as u64)?;
    }
    Ok(numbers)
}

impl Head {
    /// The head of the first log.
    pub fn first(alloc: Global) -> Head
        ensures { result ≡ first_head }
    {
        Head {
            generation: 0,
            entries: 0,
            left_out: Sequence::new(alloc),
        }
    }

    /// The head in a batch. `NoHead` if the batch is not a head.
    pub(crate) fn read(alloc: Global, batch: &[Entry]) -> Result<Head, LogFault>
        ensures { IfOk result (λ head. head_of (ids_of batch.now) ≡ Some head) }
    {
        let numbers = numbers_of(alloc, batch)?;
        if numbers.len() < 2 {
            return Err(LogFault::NoHead);
        }
        let (first, left_out) = numbers.split_at(2);
        Ok(Head {
            generation: first[0],
            entries: first[1],
            left_out: Sequence::from_slice(alloc, left_out)?,
        })
    }

    /// The batch for this head.
    pub(crate) fn spelled(&self, alloc: Global) -> Result<Vec<Spelled>, AllocError>
        ensures { IfOk result (λ batch. batch.items ≡ batch_of self.now) }
    {
        let mut batch = Vec::new(alloc);
        push_number(alloc, &mut batch, self.generation)?;
        push_number(alloc, &mut batch, self.entries)?;
        for count in self.left_out.as_slice() {
            push_number(alloc, &mut batch, *count)?;
        }
        Ok(batch)
    }
}
