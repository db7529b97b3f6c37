//! What a lane knows of its uploads.
ghost use Rattle.std.specs.Prelude.{◌≡◌, IfSome};
ghost use Rattle.up_machine.specs.Details.{details_id};

use std::collections::HashMap;
use up_events::Id;
use up_machine::Details;

/// What uploads were created with, by id.
#[derive(Drop)]
pub struct Known {
    table: Option<HashMap<Id, Details>>,
    /// What the table had no room for, because memory ran out.
    rest: Option<Vec<Details>>,
}

impl Known {
    /// No upload. Takes no memory.
    pub fn new() -> Self {
        Known {
            table: None,
            rest: None,
        }
    }

    /// What an upload was created with, without a copy. `None` if that isn't known.
    pub fn share(&self, id: Id) -> Option<Details>
        ensures { IfSome result (λ details. details_id details ≡ id) }
    {
        let details = self.table.as_ref()?.get(&id)?;
        // For the prover: each is at its id.
        if details.id() != id {
            return None;
        }
        details.share().ok()
    }

    /// What the table had no room for.
    pub fn take_rest(&mut self) -> Option<Vec<Details>> {
        self.rest.take()
    }

    /// Puts these into the table, as far as memory suffices. The rest waits until it is taken.
    pub fn learn(&mut self, mut list: Vec<Details>) {
        let alloc = *list.allocator();
        let table = self.table.get_or_insert(HashMap::new(alloc));
        if table.reserve(list.len()).is_err() {
            self.rest = Some(list);
            return;
        }
        while let Some(details) = list.pop() {
            let _ = table.insert(details.id(), details);
        }
    }

    /// Forgets an upload. Returns whether it was known.
    pub fn forget(&mut self, id: Id) -> bool {
        match &mut self.table {
            Some(table) => table.remove(&id).is_some(),
            None => false,
        }
    }
}
