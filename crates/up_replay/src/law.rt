//! Laws about the books that logs define.
ghost use Rattle.up_replay.specs.Replay.{ChangesBeginAlike, LogsBeginAlike, ReplaysGoOn};

use up_events::logs_grow_at_their_end;

/// The changes and the events of each lane that a log defines are a prefix of those that a longer log defines. So what
/// was handed over before a crash is a prefix of what the recovered log defines.
pub fn replays_begin_alike()
    ensures goes_on { ReplaysGoOn }
    ensures changes { ChangesBeginAlike }
    ensures logs { LogsBeginAlike }
{
    // For the prover: a law, which does nothing when it runs.
    logs_grow_at_their_end();
}
