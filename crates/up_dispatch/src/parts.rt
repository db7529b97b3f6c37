//! What a board is made of.
ghost use Rattle.std.specs.Prelude.{◌≡◌, ◌+◌, ◌<◌, length, replicate, IfOk};

use crate::queue_cursor::QueueCursor;
use std::alloc::Global;
use std::marker::Model;
use std::sync::ledger::Blank;
use up_events::NoMemory;
use up_queue::{TakeEnd, lane_queue};

/// The most seats that a board gives out.
pub const MAX_SEATS: u64 = 65_536;

/// The queues of a board and its blank ledger, before the board has a name.
#[derive(Drop)]
pub struct BoardParts {
    pub(crate) cursors: Vec<QueueCursor>,
    pub(crate) takes: Vec<TakeEnd>,
    pub(crate) blank: Blank,
}

impl Model for BoardParts {
    ghost use Rattle.std.specs.Prelude.{◌≡◌, ◌+◌};
    ghost use Rattle.up_dispatch.specs.Parts.{Parts, parts_view, AreNew};
    ghost use Rattle.up_dispatch.specs.declared.parts.TheConstants.{MAX_SEATS};

    ghost Value = { Parts };

    ghost view = { λ p. parts_view p.blank.name p.blank.parts p.cursors.items };

    // The ledger has a share for each seat, and one more that stays with the board.
    ghost invariant = { λ p. (p.blank.parts ≡ MAX_SEATS + 1) × AreNew p.cursors.items p.takes.items };
}

impl BoardParts {
    /// An empty queue for each lane, which holds at most `capacity` items, and the ledger of the seats. All memory for
    /// the queues is allocated here. `NoMemory` if it runs out.
    pub fn new(alloc: Global, lanes: u64, capacity: u64) -> Result<BoardParts, NoMemory>
        requires { 0 < capacity }
        ensures lanes { IfOk result (λ p. length p.queues ≡ lanes) }
        ensures capacities { IfOk result (λ p. p.capacities ≡ replicate lanes capacity) }
        ensures seats { IfOk result (λ p. p.parts ≡ MAX_SEATS + 1) }
    {
        let mut cursors = Vec::new(alloc);
        let mut takes = Vec::new(alloc);
        for _lane in 0..lanes {
            let Ok((put_end, take_end)) = lane_queue(alloc, capacity) else {
                return Err(NoMemory);
            };
            cursors.push(QueueCursor {
                put_end,
                position: 0,
                ended: false,
            })?;
            takes.push(take_end)?;
        }
        Ok(BoardParts {
            cursors,
            takes,
            blank: Blank::new(MAX_SEATS + 1),
        })
    }

    /// The number of lanes that these parts are for.
    pub fn lanes(&self) -> u64
        ensures { result ≡ length self.now.queues }
    {
        self.cursors.len() as u64
    }
}
