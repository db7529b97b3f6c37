//! A book under one lock, the lanes that it feeds, and the conversations that change it.
#![tactic(auto)]

mod answering;
mod board;
mod bodies;
mod conversation;
mod counts;
mod ended;
mod exchange;
mod finish;
mod ids;
mod inside;
mod keeper;
mod law;
mod lending;
mod locked;
mod naming;
mod parts;
mod queue_cursor;
mod reply;
mod report;
mod seat;
mod service;

pub use answering::answer;
pub use board::Board;
pub use bodies::Bodies;
pub use conversation::converse;
pub use counts::Counts;
pub use ended::{Ended, MAX_MESSAGES};
pub use exchange::Exchange;
pub use ids::{Counting, Ids, SharedIds};
pub use inside::Inside;
pub use keeper::{Keeper, Lent, Seated};
pub use law::limits_are_exact;
pub use lending::{converse_by_book, lent_answer_is_exact, lent_conversation_is_exact};
pub use naming::Naming;
pub use parts::{BoardParts, MAX_SEATS};
pub use queue_cursor::Filled;
pub use report::{FinishFault, LaneReport, Report, Unfinished};
pub use seat::Seat;
pub use service::{AtOnce, Service, converse_at};
