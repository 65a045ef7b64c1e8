//! Laws of files that hold a store: each is the contract of a function that does nothing.

ghost use Rattle.rel_files.specs.Laws.{FilesAreExact, EmptyAreasHoldNothing};

/// Files that hold a store are just those that it has, where there are none of other names.
pub fn files_are_exact()
    ensures { FilesAreExact }
{}

/// Files among which there is no segment file hold the store without forks.
pub fn empty_areas_hold_nothing()
    ensures { EmptyAreasHoldNothing }
{}
