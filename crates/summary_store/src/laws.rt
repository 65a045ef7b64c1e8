//! Laws of kept summaries: each is the contract of a function that does nothing.

ghost use Rattle.summary_store.specs.Laws.{HonestFilesAreKept, HonestCoversSumUp};

/// What is kept of an area that is honest for a history is honest: each is the summary of the
/// history's entries in its range. So is what covers a range, from its own start to its own end.
pub fn honest_files_are_kept()
    ensures kept { HonestFilesAreKept }
    ensures covers { HonestCoversSumUp }
{}
