//! Laws of lawful histories and of the WAL that tells them: each is the contract of a function that
//! does nothing.

ghost use Rattle.journal.specs.Laws.{OwnIsTidy, OwnPlacesAreTidy, OwnActsMayComeNext, PartsMayFollow, FoundIsTold, FoundAreEnded, TipsCountEntries};
ghost use Rattle.journal.specs.Laws.{LawfulIsOrderly, LawfulIsTidy, LawfulGoesOn, PartsTellKinds};
ghost use Rattle.journal.specs.Laws.{HistoriesEndAtAnEntry, FlushedEntriesAreKept, KeptIsWal};

/// The entries of a lawful history stand in order.
pub fn lawful_is_orderly()
    ensures { LawfulIsOrderly }
{}

/// From where the found entries of a lawful history end, its entries are tidy; and from where all
/// are this run's own, as they are from each own entry on.
pub fn lawful_is_tidy()
    ensures found { LawfulIsTidy }
    ensures own { OwnIsTidy }
    ensures places { OwnPlacesAreTidy }
{}

/// A lawful history goes on lawfully by an entry that may come next, and its records by the one
/// that the entry is written as.
pub fn lawful_goes_on()
    ensures { LawfulGoesOn }
{}

/// An act of one partition alone is written by the partition's part as by the store.
pub fn parts_tell_kinds()
    ensures { PartsTellKinds }
{}

/// An act of one partition alone may come next where it can be done on the partition's part, also
/// behind a history, which the part follows.
pub fn own_acts_may_come_next()
    ensures next { OwnActsMayComeNext }
    ensures follow { PartsMayFollow }
{}

/// The entries that a WAL was found to have are a lawful history, which a log tells in which
/// nothing waits.
pub fn found_is_told()
    ensures told { FoundIsTold }
    ensures ended { FoundAreEnded }
{}

/// The end of a WAL counts the entries of its history.
pub fn tips_count_entries()
    ensures { TipsCountEntries }
{}

/// The last entry of a lawful history ends where the history's WAL does.
pub fn histories_end_at_an_entry()
    ensures { HistoriesEndAtAnEntry }
{}

/// After a flush the archive is read as the entries before and those that waited up to where it
/// went, and the others wait behind, whatever stands behind them.
pub fn flushed_entries_are_kept()
    ensures { FlushedEntriesAreKept }
{}

/// Where nothing waits, and the archive doesn't go on over a missing file, it is the records of the
/// history.
pub fn kept_is_wal()
    ensures { KeptIsWal }
{}
