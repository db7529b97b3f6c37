//! What uploads were created with, on its way to the lanes of their events.
ghost use Rattle.std.specs.Prelude.{All, IfOk, IfSome, List};
ghost use Rattle.up_events.specs.declared.event.Accepted.{Accepted};
ghost use Rattle.up_machine.specs.State.{Contents};
ghost use Rattle.up_machine.specs.Details.{IsOfUpload};
ghost use Rattle.up_machine.specs.Fresh.{AreFresh, AreListed};

use crate::details::Details;
use std::alloc::Global;
use std::mem;
use up_events::{Id, NoMemory};

/// For each lane what uploads were created with that it has not taken yet, in the order of their creations.
#[derive(Drop)]
pub struct Fresh {
    alloc: Global,
    lists: Vec<Vec<Details>>,
}

impl Fresh {
    /// No uploads, for this many lanes. `NoMemory` if memory runs out.
    pub fn new(alloc: Global, lanes: u64) -> Result<Self, NoMemory>
        ensures { IfOk result (λ fresh. (content : Contents) (changes : List Accepted)
            → AreListed content changes fresh) }
    {
        let mut lists = Vec::new(alloc);
        for _lane in 0..lanes {
            lists.push(Vec::new(alloc))?;
        }
        Ok(Fresh { alloc, lists })
    }

    /// The place of the list for an upload with this id.
    fn place_of(&self, id: Id) -> usize {
        match self.lists.len() as u64 {
            0 => 0,
            lanes => id.lane(lanes) as usize,
        }
    }

    /// Makes room for an upload with this id. `NoMemory` if memory runs out.
    fn make_room(&mut self, id: Id) -> Result<(), NoMemory>
        ensures { (content : Contents) (changes : List Accepted)
            → AreListed content changes self.old → AreListed content changes self.new }
    {
        let place = self.place_of(id);
        if let Some(list) = self.lists.get_mut(place) {
            list.reserve(1)?;
        }
        Ok(())
    }

    /// Adds what an upload was created with, for which there is room.
    pub fn add(&mut self, details: Details)
        ensures { (content : Contents) (changes : List Accepted)
            → IsOfUpload content changes details
            → AreListed content changes self.old → AreListed content changes self.new }
    {
        let place = self.place_of(details.id());
        if let Some(list) = self.lists.get_mut(place) {
            let _ = list.push(details);
        }
    }

    /// What uploads of this lane were created with that it has not taken yet.
    pub fn take(&mut self, lane: u64) -> Option<Vec<Details>>
        ensures rest { (content : Contents) (changes : List Accepted)
            → AreListed content changes self.old → AreListed content changes self.new }
        ensures taken { IfSome result (λ list. (content : Contents) (changes : List Accepted)
            → AreListed content changes self.old → All (IsOfUpload content changes) list.items) }
    {
        let empty = Vec::new(self.alloc);
        let list = self.lists.get_mut(lane as usize)?;
        Some(mem::replace(list, empty))
    }
}

/// Makes room for an upload with this id, if what uploads were created with is kept. `NoMemory` if memory runs out.
pub fn reserve(fresh: &mut Option<Fresh>, id: Id) -> Result<(), NoMemory>
    ensures { (content : Contents) (changes : List Accepted)
        → AreFresh content changes fresh.old → AreFresh content changes fresh.new }
{
    match fresh {
        Some(fresh) => fresh.make_room(id),
        None => Ok(()),
    }
}
