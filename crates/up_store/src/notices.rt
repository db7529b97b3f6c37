//! Who is told whether changes can be written to the log.
ghost use Rattle.std.specs.Prelude.{All};
ghost use Rattle.up_store.specs.Lines.{IsRemoval};

use crate::unrestored::Unrestored;
use up_history::Chronicle;
use up_log::LogFault;
use up_tie::Batch;

/// Who is told when changes can't be written and when they can again, and who keeps room on the disk for removals.
pub trait StoreNotices {
    /// This many entries of the log were carried out again, and conversations begin now.
    fn is_restored(&self, entries: u64);

    /// The changes of the log of this generation could not be carried out again, so nothing is served.
    fn is_not_restored(&self, generation: u64, why: Unrestored);

    /// A change could not be written, after the one before it could; or there is no room to keep for removals, so other
    /// changes are refused from the start.
    fn fails(&self, fault: LogFault);

    /// Changes can be written again: one was written, or the log could be opened again. If only removals were taken,
    /// all changes are taken again.
    fn works(&self);

    /// No change is made any more until the server is started again. Either a change was written and not made, and this
    /// could not be written down; or it is not known which of two logs the next start finds.
    fn stops(&self, fault: LogFault);

    /// The file of the log is gone, so no change is made any more until the server is started again.
    fn is_gone(&self);

    /// A shorter log replaced the log. The sizes of both are in bytes.
    fn is_shorter(&self, before: u64, now: u64);

    /// A shorter log could not be written, so the store keeps the one that it has.
    fn is_not_shorter(&self, fault: LogFault);

    /// A second has passed since the last call. What was not said yet may be said now.
    fn is_later(&self);

    /// Keeps room on the disk for removals. The error is that there isn't enough, or, if `for_others` is set, none
    /// besides for other changes. Nothing is written to the log meanwhile.
    fn keeps_room(&self, for_others: bool) -> Result<(), LogFault>;

    /// A batch of removals could not be written. Frees the room that is kept for removals, and returns whether there
    /// was some. If there was, the batch is tried again.
    fn makes_room<K: Chronicle>(&self, batch: &Batch<K>) -> bool
        requires removals { All IsRemoval batch.now.entries };
}
