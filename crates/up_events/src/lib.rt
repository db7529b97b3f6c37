//! The history of the uploads, and the events that report it: ids, accepted changes, the events that the changes result
//! in, and the journal, which keeps a log of events for each lane.
#![tactic(auto)]

mod blocks;
mod changes;
mod ended;
mod event;
mod fault;
mod id;
mod journal;
mod law;
mod limits;
mod room;
mod sorted_ids;
mod tail;
mod trace;
mod track;

pub use changes::Changes;
pub use event::{Accepted, Event, Hook, Kind};
pub use fault::NoMemory;
pub use id::Id;
pub use journal::{Added, Journal};
pub use law::{
    fronts_are_lawful, limits_are_exact, logs_are_lawful, logs_grow_at_their_end,
    numbered_events_are_delivered,
};
pub use limits::{MAX_LANES, MAX_UPLOAD_BYTES};
pub use room::make_room;
pub use trace::Trace;
