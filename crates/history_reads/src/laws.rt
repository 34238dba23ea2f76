//! What holds of bytes that were read, shown by functions that do nothing.
ghost use Rattle.history_reads.specs.Ends.{EndsAreItems};

/// Bytes that are read to the end are the stream of the history that came. It does nothing: its contract is the law.
pub fn ends_are_items()
    ensures { EndsAreItems }
{}
