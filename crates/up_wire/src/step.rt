//! Reading one byte of a source. An interrupted read is retried.
ghost use Rattle.std.specs.Prelude.{◌<◌};
ghost use Rattle.up_wire.specs.Limits.{max_interruptions};
ghost use Rattle.up_wire.specs.Steps.{step_bytes, step_ending, Took};

use crate::device::{NextByte, Source};

/// The interruption at which a call gives up.
pub(crate) const MAX_INTERRUPTIONS: u32 = 1000;

/// The next byte, or why there is none.
#[derive(Clone, Copy)]
pub(crate) enum Step {
    Byte(u8),
    Ended,
    Failed,
}

/// Takes the next byte. Retries an interrupted read.
pub(crate) fn take_step<R: Source>(source: &mut R, interruptions: &mut u32) -> Step
    requires { interruptions.old < max_interruptions }
    ensures { Took (R.device source.old) (R.device source.new)
        interruptions.old interruptions.new (step_bytes result) (step_ending result) }
{
    'tries: loop {
        match source.next_byte() {
            NextByte::Byte(byte) => return Step::Byte(byte),
            NextByte::End => return Step::Ended,
            NextByte::Failed => return Step::Failed,
            NextByte::Interrupted => {
                *interruptions += 1;
                if *interruptions == MAX_INTERRUPTIONS {
                    return Step::Failed;
                }
            }
        }
    }
}
