//! Laws about shorter logs.
ghost use Rattle.up_compact.specs.Shorter.{EndedAreDecidedAlike, EndedArePlannedAlike, EndedContentsAreEqual};
ghost use Rattle.up_compact.specs.Shorter.{EndedStayAlike, LogsAreWithout, OthersAreDecidedAlike};
ghost use Rattle.up_compact.specs.Shorter.{OthersAreHandedAlike, OthersAreKnown, RestIsHandedAlike, ShorterDefines};
ghost use Rattle.up_compact.specs.Writing.{WrittenDefines, WrittenGoesOn};

/// A log without the entries about some uploads defines the book without these uploads, if no entry that stays creates
/// a final upload with one of them as a part. The other uploads have the same content and the same events, with the
/// same numbers, and the decision on requests about them is the same. If all events of the uploads that are left out
/// were handed over, the same events remain to be handed over.
pub fn shorter_logs_define_the_rest()
    ensures defines { ShorterDefines }
    ensures written { WrittenDefines }
    ensures known { OthersAreKnown }
    ensures logs { LogsAreWithout }
    ensures decided { OthersAreDecidedAlike }
    ensures handed { OthersAreHandedAlike }
{}

/// If the uploads that are left out were removed, both books have the same uploads, and the decision is the same for
/// each request except the creation of an upload with such an id. This stays so, whatever else is committed to both
/// books. If their events were handed over, the same events remain to be handed over.
pub fn ended_are_left_out()
    ensures contents { EndedContentsAreEqual }
    ensures decided { EndedAreDecidedAlike }
    ensures planned { EndedArePlannedAlike }
    ensures stays { EndedStayAlike }
    ensures handed { RestIsHandedAlike }
    ensures written { WrittenGoesOn }
{}
