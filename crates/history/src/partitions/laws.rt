//! Laws of a partition's part: each is the contract of a function that does nothing.

ghost use Rattle.history.specs.partitions.Laws.{PartsFoldAlike, OtherEntriesLeaveParts, OthersMayBePassedOver, OwnActsAreDone, OwnActsAreTidy, StoresAreTheirParts, PartsAreUnique};

/// The fold of a history's part, from a store's part, is the part of the history's fold.
pub fn parts_fold_alike()
    ensures { PartsFoldAlike }
{}

/// Entries that don't concern a partition leave its part, so the fold of a history's part is that
/// of the entries that do.
pub fn other_entries_leave_parts()
    ensures left { OtherEntriesLeaveParts }
    ensures passed { OthersMayBePassedOver }
{}

/// An act that concerns one partition alone may be judged by the partition's part: it can be done
/// on the store where it can be done on the part, and is tidy where it is tidy there.
pub fn own_acts_are_judged_by_parts()
    ensures done { OwnActsAreDone }
    ensures tidy { OwnActsAreTidy }
{}

/// A store is made of its four parts, and has one of each partition.
pub fn stores_are_their_parts()
    ensures made { StoresAreTheirParts }
    ensures one { PartsAreUnique }
{}
