//! The lines about a call.
ghost use Rattle.std.specs.Prelude.{◌≡◌, ◌↔◌, IsTrue};

use std::alloc::{AllocError, Global};
use std::fmt::Write;
use std::io;

/// How often a call is made if memory runs out.
pub const MAX_CALLS: u32 = 8;

/// The room of a line, in bytes. Those of the stored rows are shorter.
const ROOM: usize = 4096;

/// The three lines of a call.
#[derive(Drop)]
pub struct Lines {
    /// The state before it.
    pub before: String,
    /// The call and its result.
    pub called: String,
    /// The state after it.
    pub after: String,
}

/// Whether the state after a call is the state before it.
fn is_same(before: &str, after: &str) -> bool
    ensures { IsTrue result ↔ (before.now ≡ after.now) }
{
    before == after
}

impl Lines {
    /// Allocates the room of all lines.
    pub fn new(alloc: Global) -> Result<Lines, AllocError> {
        Ok(Lines {
            before: String::with_capacity(alloc, ROOM)?,
            called: String::with_capacity(alloc, ROOM)?,
            after: String::with_capacity(alloc, ROOM)?,
        })
    }

    /// Starts the lines of this call.
    pub fn begin(&mut self, name: &str, given: &str) -> Result<(), AllocError> {
        self.before.clear();
        self.called.clear();
        self.after.clear();
        write!(self.called, "{name}({given}) => ")
    }

    /// Prints the lines. If memory ran out in the call, the last line says whether the state is the same as before.
    pub fn tell(&self, rt: &impl Print, refused: bool) -> io::Result<()> {
        let word = match (refused, is_same(self.before.as_str(), self.after.as_str())) {
            (false, _) => "after",
            (true, true) => "after, the same",
            (true, false) => "after, not the same",
        };
        let (before, called, after) = (&self.before, &self.called, &self.after);
        println!(rt; "before: {before}")?;
        println!(rt; "{called}")?;
        println!(rt; "{word}: {after}")
    }
}
