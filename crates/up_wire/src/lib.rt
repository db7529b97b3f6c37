//! One message of HTTP/1.0 or HTTP/1.1 from any source of bytes, and one response to any sink (RFC 9112).
#![tactic(auto)]

mod body;
mod chunks;
mod connection;
mod device;
mod framing;
mod head;
mod head_reader;
mod input;
mod law;
mod line;
mod output;
mod reader;
mod response;
mod room;
mod shown;
mod slip;
mod spooled;
mod step;
mod taken;
mod tape;
mod text;
mod wire_fault;
mod write;

pub use device::{NextByte, ReadSome, Sink, Source, WriteSome};
pub use input::Input;
pub use law::an_input_has_one_answer;
pub use output::Output;
pub use reader::read_message;
pub use response::write_response;
pub use slip::Slip;
pub use taken::{Limits, Taken};
pub use tape::Tape;
pub use text::{WriteFailed, flush, write_pieces};
pub use wire_fault::WireFault;
