//! Laws of summaries: each is the contract of a function that does nothing.

ghost use Rattle.wal_summary.specs.Laws.{SummariesAreOne, SameTablesAreSummedUp, MergesSumUpBoth, NeighboursAreMerged, CoveringsSumUp, LogsAreSummedUp, AddedEntriesKeepHonesty};

/// A range of entries has one summary: no two lists of forks are it. Forks in order that say the
/// same as a table, fork by fork and block by block, are its summary.
pub fn summaries_are_one()
    ensures one { SummariesAreOne }
    ensures same { SameTablesAreSummedUp }
{}

/// The merge of the summaries of two adjoining ranges is the summary of both.
pub fn merges_sum_up_both()
    ensures { MergesSumUpBoth }
{}

/// The merge of the summaries of neighbouring ranges is the summary of the whole range. So is what
/// covers a range, from its own start to its own end.
pub fn neighbours_are_merged()
    ensures merged { NeighboursAreMerged }
    ensures covering { CoveringsSumUp }
{}

/// The log of a history, as it is read back, has the history's summaries.
pub fn logs_are_summed_up()
    ensures { LogsAreSummedUp }
{}

/// Honest summaries stay so when entries are added behind them.
pub fn honest_summaries_stay()
    ensures { AddedEntriesKeepHonesty }
{}
