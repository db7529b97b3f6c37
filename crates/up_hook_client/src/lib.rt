//! Hook servers: programs of operators that are asked before a change, and told of every event, in the JSON of tusd's
//! hooks, over HTTP/1.1.
#![tactic(auto)]

mod acknowledged;
mod client;
mod connection;
mod deadline;
mod enabled;
mod headers;
mod heard;
mod no_answer;
mod post;
mod server;
mod told;
mod upload;

pub use acknowledged::Acknowledged;
pub use client::HookClient;
pub use connection::Answer;
pub use enabled::Enabled;
pub use headers::field_names;
pub use heard::{Judged, is_acknowledgement};
pub use no_answer::NoAnswer;
pub use post::Post;
pub use server::HookServer;
pub use told::{ask_text, event_text};
