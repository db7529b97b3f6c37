//! The book of uploads: the decision on each request of the tus protocol 1.0.0, how it changes the uploads, and the
//! journal of the changes.
#![tactic(auto)]

mod answer;
mod ask;
mod book;
mod checks;
mod copies;
mod details;
mod fresh;
mod law;
mod parts;
mod pieces;
mod plan;
mod reads;
mod reason;
mod refusal;
mod remains;
mod store;
mod upload;
mod uploads;
mod view;

pub use ask::{Ask, Point, Verdict};
pub use book::Book;
pub use details::Details;
pub use law::{details_are_of_the_creation, post_finish_is_asked, refusals_of_plans_are_kept};
pub use plan::{Asked, Done, Plan};
pub use reason::Reason;
pub use refusal::{Refusal, response_of};
pub use remains::Remains;
pub use view::View;
