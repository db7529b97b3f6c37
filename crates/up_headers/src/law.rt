//! Laws about the definitions.
ghost use Rattle.up_headers.specs.Metadata.{ReadsOnce, FaultsOnce};
ghost use Rattle.up_headers.specs.Reading.{ReadingTells};
ghost use Rattle.up_headers.specs.Concat.{ConcatReadsOnce};

/// A metadata text is read as at most one list of pairs, and has at most one fault. The function `reading`, which the
/// checks of a creation are defined by, returns exactly these.
pub fn metadata_reads_once()
    ensures pairs { ReadsOnce }
    ensures faults { FaultsOnce }
    ensures readings { ReadingTells }
{}

/// An `Upload-Concat` means at most one thing: one kind of upload, and one list of parts.
pub fn concat_reads_once()
    ensures { ConcatReadsOnce }
{}
