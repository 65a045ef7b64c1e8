//! Laws of a disk that is behind its store: each is the contract of a function that does nothing.

ghost use Rattle.history.specs.fuzzy_copies.CoverLaws.{LaggingDisksCover, AddedEntriesKeepCovers, WritesKeepCovers, CoveringDisksAnswer};

/// A disk that is behind its store by what the entries from a place on changed covers the history
/// from there on. A disk that is the store as it is covers from each place on from which on the
/// entries are tidy.
pub fn disks_cover()
    ensures { LaggingDisksCover }
{}

/// A disk covers still when entries are added, and when blocks and forks are written.
pub fn covers_are_kept()
    ensures added { AddedEntriesKeepCovers }
    ensures written { WritesKeepCovers }
{}

/// What a disk that covers answers to a copier is right, as of its place and of each earlier one.
pub fn covering_disks_answer()
    ensures { CoveringDisksAnswer }
{}
