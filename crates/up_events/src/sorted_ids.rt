//! Ids in ascending order.
ghost use Rattle.std.specs.Prelude.{◌≡◌, ◌++◌, ◌*◌, ◌≤◌, ◌<◌, []};
ghost use Rattle.std.specs.Prelude.{length, slice_get, Some, option_to_list, OnOk, OnErr, MatchOption, vec_capacity};
ghost use Rattle.std.specs.List.{insert};
ghost use Rattle.std.specs.List.Sorted.{IsBinarySearchResult, IsNonDecreasing};
ghost use Rattle.std.specs.Ordering.{nat_cmp};
ghost use Rattle.up_events.specs.Ascending.{HasAdded, AreBlocks, has, ids_in};

use crate::blocks::new_block;
use crate::fault::NoMemory;
use crate::id::Id;
use crate::room::make_room_by;
use std::alloc::Global;
use std::cmp::Ordering;
use std::marker::Model;

/// The number of ids that a block has room for.
const BLOCK: u64 = 32;

/// The smallest number of places by which the list of blocks grows.
const LEAST_STEP: usize = 4;

/// Ids in ascending order, in blocks of one size that are all full except the last. So a binary search finds an id, and
/// no block grows or is freed: many of these lists leave no holes in memory.
#[derive(Drop)]
pub struct SortedIds {
    /// The number of ids.
    len: u64,
    blocks: Vec<Vec<Id>>,
}

impl Model for SortedIds {
    ghost use Rattle.std.specs.Prelude.{ℕ, List};
    ghost use Rattle.up_events.specs.Ascending.{AreAscending, ids_in};

    ghost Value = { List ℕ };

    ghost view = { λ s. ids_in s.blocks.items };

    ghost invariant = { λ s. AreAscending s.len s.blocks.items };
}

/// Inserts an id at a place of a block. If the block was full, its last id no longer fits, and is returned.
fn put_into(block: &mut Vec<Id>, at: usize, id: Id) -> Option<Id>
    requires at { at < BLOCK }
    requires within { at ≤ length block.old.items }
    requires len { length block.old.items ≤ BLOCK }
    requires room { BLOCK ≤ vec_capacity block.old }
    ensures items { insert block.old.items at id ≡ block.new.items ++ option_to_list result }
    ensures len { MatchOption result
        (length block.new.items ≤ BLOCK)
        (λ _. length block.new.items ≡ BLOCK) }
    ensures room { BLOCK ≤ vec_capacity block.new }
{
    let last = if block.len() as u64 == BLOCK {
        block.pop()
    } else {
        None
    };
    let _there_is_room = block.insert(at, id);
    last
}

/// Makes room for one more id in the blocks, which have `len` ids. `NoMemory` if memory runs out.
fn make_place(blocks: &mut Vec<Vec<Id>>, len: u64) -> Result<(), NoMemory>
    requires blocks { AreBlocks (ids_in blocks.old.items) blocks.old.items }
    requires counted { len ≡ length (ids_in blocks.old.items) }
    requires room { len ≤ length blocks.old.items * BLOCK }
    ensures blocks { AreBlocks (ids_in blocks.new.items) blocks.new.items }
    ensures same { ids_in blocks.new.items ≡ ids_in blocks.old.items }
    ensures room { len ≤ length blocks.new.items * BLOCK }
    ensures ok { OnOk result (len < length blocks.new.items * BLOCK) }
{
    if len / BLOCK >= blocks.len() as u64 {
        make_room_by(blocks, 1, LEAST_STEP)?;
        let block = new_block(*blocks.allocator(), BLOCK)?;
        blocks.push_reserved(block);
    }
    Ok(())
}

/// Inserts an id at a place of the list in these blocks. From there on, the last id of each full block moves to the
/// start of the next block.
fn put_at(blocks: &mut Vec<Vec<Id>>, place: u64, id: Id)
    requires blocks { AreBlocks (ids_in blocks.old.items) blocks.old.items }
    requires within { place ≤ length (ids_in blocks.old.items) }
    requires room { length (ids_in blocks.old.items) < length blocks.old.items * BLOCK }
    ensures blocks { AreBlocks (ids_in blocks.new.items) blocks.new.items }
    ensures ids { ids_in blocks.new.items ≡ insert (ids_in blocks.old.items) place id }
    ensures rows { length blocks.new.items ≡ length blocks.old.items }
{
    let mut at = (place % BLOCK) as usize;
    let mut moved = id;
    for k in (place / BLOCK) as usize..blocks.len() {
        let Some(last) = put_into(&mut blocks[k], at, moved) else {
            return;
        };
        at = 0;
        moved = last;
    }
}

impl SortedIds {
    /// No ids.
    pub fn new(alloc: Global) -> SortedIds
        ensures { result ≡ [] }
    {
        SortedIds {
            len: 0,
            blocks: Vec::new(alloc),
        }
    }

    /// The id at a place.
    fn at(&self, place: u64) -> Id
        requires { place < length self.now }
        ensures { slice_get self.now place ≡ Some result }
    {
        self.blocks[(place / BLOCK) as usize][(place % BLOCK) as usize]
    }

    /// The place of an id, or the place where it would be inserted.
    fn find(&self, id: Id) -> Result<u64, u64>
        ensures ascend { IsNonDecreasing self.now }
        ensures found { IsBinarySearchResult (λ u. nat_cmp u id) self.now result }
    {
        let mut low = 0;
        let mut high = self.len;
        while low < high {
            let middle = low + (high - low) / 2;
            match self.at(middle).cmp(&id) {
                Ordering::Less => low = middle + 1,
                Ordering::Equal => return Ok(middle),
                Ordering::Greater => high = middle,
            }
        }
        Err(low)
    }

    /// Whether the id is there.
    pub fn contains(&self, id: Id) -> bool
        ensures { result ≡ has self.now id }
    {
        self.find(id).is_ok()
    }

    /// Inserts an id if it is not there. `NoMemory` if memory runs out or there are already 2^64 - 1 ids; the list is
    /// then unchanged.
    pub fn insert(&mut self, id: Id) -> Result<(), NoMemory>
        ensures ok { OnOk result (HasAdded self.old id self.new) }
        ensures err { OnErr result (self.new ≡ self.old) }
    {
        let Err(place) = self.find(id) else {
            return Ok(());
        };
        if self.len == u64::MAX {
            return Err(NoMemory);
        }
        make_place(&mut self.blocks, self.len)?;
        put_at(&mut self.blocks, place, id);
        self.len += 1;
        Ok(())
    }
}
