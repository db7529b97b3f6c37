//! An upload server for the tus resumable upload protocol 1.0.0. Its lanes hand the events of each upload to
//! post-hooks, in threads of their own. It asks stored closures before an upload is made, completed or removed.
//! `replay` serves one conversation, `serve` the connections of a listener. `ConnectionLimit` says how many of these
//! may be open, and `Seats` holds the seats that they take and give back.
#![tactic(auto)]

mod accept;
mod beside;
mod boards;
mod connection_context;
mod connection_limit;
mod ending;
mod event_lines;
mod gate;
mod hooks;
mod lane_notices;
mod lanes;
mod line_delivery;
mod listening;
mod notices;
mod patience;
mod pool;
mod random_ids;
mod report;
mod run_outcome;
mod runner;
mod running;
mod said;
mod seats;
mod served;
mod server_fault;
mod serving;
mod shown;
mod status;
mod visit;
mod watch;

pub use accept::{Visits, serve_connections};
pub use connection_limit::ConnectionLimit;
pub use ending::Ending;
pub use event_lines::{AfterLines, EventLines, Written};
pub use hooks::Hooks;
pub use line_delivery::{LineDelivery, line_couriers};
pub use listening::{Connections, keep_serving, serve, serve_with};
pub use notices::{Entrance, Notices, Silent, Want};
pub use patience::{Patience, milliseconds};
pub use random_ids::{RandomIds, texts_tell_their_byte};
pub use said::{Due, Said};
pub use seats::Seats;
pub use server_fault::ServerFault;
pub use serving::replay;
pub use shown::Shown;
pub use up_rules::{Rule, at_most, finishes_at_most, keeps, needs_key, refuse, rules_of};
pub use watch::Watch;
