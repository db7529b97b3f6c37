//! A writer that fails in mid-stream.
use std::io::{self, ErrorKind, Write};

/// Takes `room` bytes, a few per call, then fails once, and would take more.
#[derive(Drop)]
pub struct FullWriter<'a> {
    pub taken: &'a mut Vec<u8>,
    pub room: usize,
}

impl<'a> Write for FullWriter<'a> {
    fn write(&mut self, buf: &[u8]) -> io::Result<usize> {
        if self.room == 0 {
            self.room = usize::MAX;
            return Err(io::Error::from(ErrorKind::BrokenPipe));
        }
        let count = buf.len().min(self.room).min(7);
        self.taken.extend_from_slice(&buf[..count])?;
        self.room -= count;
        Ok(count)
    }

    fn flush(&mut self) -> io::Result<()> {
        Ok(())
    }
}
