//! Laws of restart: each is the contract of a function that does nothing.

ghost use Rattle.restart_laws.specs.Laws.{MoreEntriesKeepCovers, EarlierPlacesAreCovered};
ghost use Rattle.restart_laws.specs.Laws.{LostEntriesKeepCovers, RestartsAreWhole};

/// A disk that covers entries from a place on covers more of them, and from each earlier place on;
/// one that was cleaned as of a place that the survivors don't reach covers these.
pub fn covers_go_on()
    ensures more { MoreEntriesKeepCovers }
    ensures earlier { EarlierPlacesAreCovered }
    ensures lost { LostEntriesKeepCovers }
{}

/// Over the disks that a stop left, replay of the records that survived makes from the redo point
/// on what all of them make from nothing.
pub fn restarts_are_whole()
    ensures { RestartsAreWhole }
{}
