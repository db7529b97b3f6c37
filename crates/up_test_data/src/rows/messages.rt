//! Rows of messages: the settings of the next row, and its result.
mod asked;
mod counting;
mod devices;
mod no_files;
mod reading;
mod responses;
mod turns;

use crate::rows::line::{cut, number_of};
use crate::rows::messages::devices::Waits;
use crate::rows::row_fault::RowFault;
use crate::text::put_bytes;
use std::alloc::Global;

/// The start of the next row's text, and the settings of its devices.
#[derive(Drop)]
pub struct Messages {
    start: Vec<u8>,
    text: Vec<u8>,
    pub reads: Waits,
    pub writes: Waits,
    pub room: usize,
}

/// The two numbers of a text.
fn waits_of(text: &str) -> Result<Waits, RowFault> {
    let (before, each) = cut(text);
    Ok(Waits {
        before: number_of(before)?,
        each: number_of(each)?,
    })
}

impl Messages {
    pub fn new(alloc: Global) -> Self {
        Messages {
            start: Vec::new(alloc),
            text: Vec::new(alloc),
            reads: Waits::NONE,
            writes: Waits::NONE,
            room: 1000,
        }
    }

    /// Whether a device is interrupted or has little room.
    fn is_odd(&self) -> bool {
        self.reads != Waits::NONE || self.writes != Waits::NONE || self.room != 1000
    }

    fn put_times(&mut self, text: &str) -> Result<(), RowFault> {
        let (count, text) = cut(text);
        for _ in 0..number_of(count)? {
            put_bytes(&mut self.text, text)?;
        }
        Ok(())
    }

    /// Reads a line that says something about the next row, or about all following rows.
    pub fn set(&mut self, line: &str) -> Result<(), RowFault> {
        let (mark, text) = cut(line);
        match mark {
            "start" => {
                self.start.clear();
                Ok(put_bytes(&mut self.start, text)?)
            }
            "put" => Ok(put_bytes(&mut self.text, text)?),
            "times" => self.put_times(text),
            "reads" => {
                self.reads = waits_of(text)?;
                Ok(())
            }
            "writes" => {
                let (room, waits) = cut(text);
                self.writes = waits_of(waits)?;
                self.room = number_of(room)? as usize;
                Ok(())
            }
            _ => Err(RowFault::Mark),
        }
    }

    /// The result of a row, as text. Then resets the settings for the next row.
    pub fn take(&mut self, alloc: Global, row: &str, wanted: &str) -> Result<String, RowFault> {
        let (mark, text) = cut(row);
        let mut bytes = Vec::from_slice(alloc, &self.start)?;
        bytes.extend_from_slice(&self.text)?;
        put_bytes(&mut bytes, text)?;
        let calls = wanted.split(" | ").count();
        let found = self.found(alloc, mark, text, &bytes, calls);
        self.text.clear();
        self.reads = Waits::NONE;
        self.writes = Waits::NONE;
        self.room = 1000;
        found
    }

    /// The messages that are read of a row with this mark.
    fn read(
        &self,
        alloc: Global,
        mark: &str,
        bytes: &[u8],
        calls: usize,
    ) -> Result<String, RowFault> {
        match mark {
            "end" if self.is_odd() => reading::by_bytes(alloc, self, bytes, false, calls, false),
            "end" => reading::either_way(alloc, self, bytes, calls),
            "fail" => reading::by_bytes(alloc, self, bytes, true, calls, false),
            "both" => reading::at_both_ends(alloc, self, bytes, calls),
            _ => reading::by_bytes(alloc, self, bytes, false, calls, true),
        }
    }

    /// What is written of the response of a row with this mark.
    fn written(&self, alloc: Global, mark: &str, text: &str) -> Result<String, RowFault> {
        match mark {
            "respond" => responses::written(alloc, self, text),
            "sent" => responses::sent(alloc, text),
            "pieces" => responses::pieces_sent(alloc, text == "flushed"),
            "refused" => responses::refused(alloc, self),
            _ => responses::lost(alloc, self),
        }
    }

    /// The result of a row with this mark. Its text is given as it was written, and as bytes.
    fn found(
        &self,
        alloc: Global,
        mark: &str,
        text: &str,
        bytes: &[u8],
        calls: usize,
    ) -> Result<String, RowFault> {
        match mark {
            "end" | "fail" | "both" | "slow" => self.read(alloc, mark, bytes, calls),
            "respond" | "sent" | "pieces" | "refused" | "lost" => self.written(alloc, mark, text),
            "slice" => turns::of_slice(alloc, text),
            "reader" => turns::of_reader(alloc, text),
            "writer" => turns::of_writer(alloc, text),
            "shared" => responses::shared(alloc, bytes),
            "faults" => asked::faults(alloc),
            "id" => asked::id(alloc, bytes),
            "metadata" => asked::metadata(alloc, bytes),
            "request" => asked::asked(alloc, bytes),
            "count" => counting::counted(alloc, bytes),
            "pass" => counting::passed(alloc, bytes),
            _ => Err(RowFault::Mark),
        }
    }
}
