//! Sources and sinks of bytes.
ghost use Rattle.std.specs.Prelude.{◌≡◌, ℕ, ◌+◌, ◌<◌, ◌≤◌, IsTrue, List, ◌++◌, length, take, vec_len, vec_capacity};
ghost use Rattle.std.specs.Io.KnownBytes.{Consumes, Appends, Keeps};
ghost use Rattle.up_wire.specs.Device.{Device, given, is_failed_read, interrupted_reads, EndsAt, IsRun};
ghost use Rattle.up_wire.specs.Device.{is_failed_run, interrupted_runs, RunEndsAt, KeepsRoom, IsInLine};
ghost use Rattle.up_wire.specs.Device.{taken, is_failed_write, interrupted_writes, TakesSome};

/// The result of asking a source for its next byte.
#[derive(Clone, Copy, Debug, PartialEq, Eq)]
pub enum NextByte {
    Byte(u8),
    /// No bytes are left.
    End,
    /// Nothing arrived this time.
    Interrupted,
    /// The source failed. From now on it returns only this.
    Failed,
}

/// The result of asking a source for bytes.
#[derive(Clone, Copy, Debug, PartialEq, Eq)]
pub enum ReadSome {
    /// The number of bytes that it moved, at least one.
    Moved(usize),
    /// No bytes are left.
    End,
    /// Nothing arrived this time.
    Interrupted,
    /// The source failed. From now on it returns only this.
    Failed,
}

/// A source of bytes. After it has returned `Failed`, it returns nothing else. It returns `End` only if no bytes are
/// left.
pub trait Source {
    /// The bytes that are left, if they are known; whether it returned `Failed`, and how often `Interrupted`.
    ghost device: { Self → Device };

    /// Takes the next byte, or returns why there is none.
    fn next_byte(&mut self) -> NextByte
        ensures bytes { Consumes (device self.old).bytes (device self.new).bytes (given result) }
        ensures end { EndsAt result (device self.new).bytes }
        ensures failed { (device self.new).has_failed ≡ is_failed_read result }
        ensures stays_failed { IsTrue (device self.old).has_failed
            → IsTrue (device self.new).has_failed }
        ensures interrupted { (device self.new).interruptions
            ≡ (device self.old).interruptions + interrupted_reads result };

    /// Moves some of the next bytes to the start of `into`, at most as many as it has places. The places after them may
    /// have any content. The effect is that of a few calls of `next_byte`, but a source that has many bytes available
    /// can move them at once.
    fn take_into(&mut self, into: &mut [u8]) -> ReadSome
        requires some { 0 < length into.old }
        ensures bytes { (run : List ℕ)
            × Consumes (device self.old).bytes (device self.new).bytes run
            × (take (length run) into.new ≡ run) × IsRun result (length into.new) run }
        ensures end { RunEndsAt result (device self.new).bytes }
        ensures failed { (device self.new).has_failed ≡ is_failed_run result }
        ensures stays_failed { IsTrue (device self.old).has_failed
            → IsTrue (device self.new).has_failed }
        ensures interrupted { (device self.new).interruptions
            ≡ (device self.old).interruptions + interrupted_runs result }
    {
        match self.next_byte() {
            NextByte::Byte(byte) => {
                into[0] = byte;
                ReadSome::Moved(1)
            }
            NextByte::End => ReadSome::End,
            NextByte::Interrupted => ReadSome::Interrupted,
            NextByte::Failed => ReadSome::Failed,
        }
    }

    /// Moves some of the next bytes to the end of `into`, at most `most` and none after a line feed. `into` has room
    /// for them. If none is moved, the room is unchanged.
    fn take_in_line(&mut self, into: &mut Vec<u8>, most: usize) -> ReadSome
        requires some { 0 < most }
        requires room { vec_len into.old + most ≤ vec_capacity into.old }
        ensures bytes { (run : List ℕ)
            × Consumes (device self.old).bytes (device self.new).bytes run
            × (into.new.items ≡ into.old.items ++ run) × IsRun result most run × IsInLine run }
        ensures room { KeepsRoom result (vec_capacity into.old) (vec_capacity into.new) }
        ensures end { RunEndsAt result (device self.new).bytes }
        ensures failed { (device self.new).has_failed ≡ is_failed_run result }
        ensures stays_failed { IsTrue (device self.old).has_failed
            → IsTrue (device self.new).has_failed }
        ensures interrupted { (device self.new).interruptions
            ≡ (device self.old).interruptions + interrupted_runs result }
    {
        match self.next_byte() {
            NextByte::Byte(byte) => {
                into.push_reserved(byte);
                ReadSome::Moved(1)
            }
            NextByte::End => ReadSome::End,
            NextByte::Interrupted => ReadSome::Interrupted,
            NextByte::Failed => ReadSome::Failed,
        }
    }
}

/// The result of giving bytes to a sink.
#[derive(Clone, Copy, Debug, PartialEq, Eq)]
pub enum WriteSome {
    /// The number of bytes that it took from the start.
    Took(usize),
    /// It took nothing this time.
    Interrupted,
    /// The sink failed. From now on it returns only this.
    Failed,
}

/// A sink for bytes. After it has returned `Failed`, it returns nothing else.
pub trait Sink {
    /// The bytes that were written, if they are known; whether it returned `Failed`, and how often `Interrupted`.
    ghost device: { Self → Device };

    /// Takes some bytes from the start of `bytes`: at least one, if there are any.
    fn write_some(&mut self, bytes: &[u8]) -> WriteSome
        ensures bytes { Appends (device self.old).bytes (device self.new).bytes
            (taken result bytes.now) }
        ensures some { TakesSome result bytes.now }
        ensures failed { (device self.new).has_failed ≡ is_failed_write result }
        ensures stays_failed { IsTrue (device self.old).has_failed
            → IsTrue (device self.new).has_failed }
        ensures interrupted { (device self.new).interruptions
            ≡ (device self.old).interruptions + interrupted_writes result };

    /// Sends everything that the sink holds back, and reports this as taking no bytes. A sink that holds nothing back
    /// has nothing to do.
    fn flush(&mut self) -> WriteSome
        ensures bytes { Keeps (device self.old).bytes (device self.new).bytes }
        ensures failed { (device self.new).has_failed ≡ is_failed_write result }
        ensures stays_failed { IsTrue (device self.old).has_failed
            → IsTrue (device self.new).has_failed }
        ensures interrupted { (device self.new).interruptions
            ≡ (device self.old).interruptions + interrupted_writes result };
}
