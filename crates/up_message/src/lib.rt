//! A request and a response as messages of HTTP: fields and their values, and the bytes of a body (RFC 9110, sections 5
//! and 6).
#![tactic(auto)]

mod digits;
mod fields;
mod message;
mod piece;
mod response;
mod run;
mod segments;
mod sequence;

pub use digits::{is_digits, number};
pub use fields::{Values, find_value, same_name, trim_end_ows};
pub use message::{Field, Message};
pub use piece::{Found, MIN_SHARED, Piece};
pub use response::Response;
pub use run::Run;
pub use segments::Segments;
pub use sequence::Sequence;
