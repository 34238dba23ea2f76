//! What holds of these counts, each shown by a function that does nothing.
ghost use Rattle.history_counts.specs.CountLaws.{LengthsAreNamed, PagesAreCounted};

/// Each leaf has the length of its longest naming exactly where the two lists are the same. It does nothing: its contract is the law.
pub fn lengths_are_named()
    ensures { LengthsAreNamed }
{}

/// What is counted file by file is what a history needs. It does nothing: its contract is the law.
pub fn pages_are_counted()
    ensures { PagesAreCounted }
{}
