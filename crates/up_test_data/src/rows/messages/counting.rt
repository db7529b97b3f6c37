//! Counting the content of many messages, and a plain pass over them, which `bench/heads.py` times.
use crate::rows::messages::no_files::NoFiles;
use crate::rows::row_fault::RowFault;
use std::alloc::Global;
use up_headers::pairs_of;
use up_message::{Message, Values, find_value};
use up_wire::{Input, Limits, Output, ReadSome, Sink, Source, Taken, read_message};

/// The number of bytes that a pass takes at once.
const ROOM: usize = 8192;

/// The counts of what was read.
#[derive(Clone, Copy)]
struct Tally {
    messages: u64,
    bytes: u64,
    pairs: u64,
}

impl Tally {
    fn add(&mut self, message: &Message, pairs: u64) {
        self.messages = self.messages.wrapping_add(1);
        self.bytes = self.bytes.wrapping_add(message.body.len() as u64);
        self.pairs = self.pairs.wrapping_add(pairs);
    }
}

/// The number of metadata pairs of a message; 0 if they are malformed.
fn count_pairs(alloc: Global, message: &Message) -> u64 {
    let Values::One(text) = find_value(message.fields.as_slice(), b"upload-metadata") else {
        return 0;
    };
    match pairs_of(alloc, text) {
        Ok(pairs) => pairs.len() as u64,
        Err(_) => 0,
    }
}

/// Reads messages up to the end of the source, or to the first that cannot be read.
fn read<R: Source, W: Sink>(alloc: Global, source: &mut R, sink: &mut W) -> Tally {
    let limits = Limits { max_body: 1 << 40 };
    let mut tally = Tally {
        messages: 0,
        bytes: 0,
        pairs: 0,
    };
    for _ in 0..u64::MAX {
        let taken = read_message(alloc, source, sink, &mut NoFiles::new(), &limits);
        let Taken::Message(message) = taken else {
            return tally;
        };
        tally.add(&message, count_pairs(alloc, &message));
    }
    tally
}

/// The number of messages in an input, of bytes in their bodies, and of pairs in their metadata.
pub fn counted(alloc: Global, mut input: &[u8]) -> Result<String, RowFault> {
    let mut sink = Output::new(Vec::new(alloc));
    let tally = read(alloc, &mut Input::new(&mut input), &mut sink);
    let Tally {
        messages,
        bytes,
        pairs,
    } = tally;
    Ok(format!(in alloc; "{messages} {bytes} {pairs}")?)
}

fn sum(bytes: &[u8]) -> u64 {
    let mut sum = 0u64;
    for byte in bytes {
        sum = sum.wrapping_add(u64::from(*byte));
    }
    sum
}

/// The sum of the bytes up to the end of the source.
fn pass<R: Source>(alloc: Global, source: &mut R) -> Result<u64, RowFault> {
    let mut all = 0u64;
    let mut run = vec![in alloc; 0; ROOM]?;
    for _ in 0..u64::MAX {
        match source.take_into(&mut run) {
            ReadSome::Moved(count) => all = all.wrapping_add(sum(&run[..count])),
            ReadSome::Interrupted => {}
            ReadSome::End => return Ok(all),
            ReadSome::Failed => return Ok(all),
        }
    }
    Ok(all)
}

/// The sum of an input's bytes.
pub fn passed(alloc: Global, mut input: &[u8]) -> Result<String, RowFault> {
    let all = pass(alloc, &mut Input::new(&mut input))?;
    Ok(format!(in alloc; "{all}")?)
}
