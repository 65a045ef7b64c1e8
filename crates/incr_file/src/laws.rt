//! Laws of incremental files: each is the contract of a function that does nothing.

ghost use Rattle.incr_file.specs.Laws.{WrittenHeadsAreRead, ReadHeadsAreWritten};
ghost use Rattle.incr_file.specs.Laws.{HeadsHaveOneAnswer, WrittenFilesAreRead};
ghost use Rattle.incr_file.specs.Laws.{OriginsAreRight};
ghost use Rattle.incr_file.specs.Laws.{PlannedHeadsAreWritten, PlannedHeadsListAll};

/// A head that was written is read as it was, alone and with the blocks behind it; a file that is
/// read as one begins with the text of its head; and a file has one reading or one first fault.
pub fn heads_are_read_as_written()
    ensures written { WrittenHeadsAreRead }
    ensures files { WrittenFilesAreRead }
    ensures text { ReadHeadsAreWritten }
    ensures one { HeadsHaveOneAnswer }
{}

/// The head of each plan may be written, and it lists just the planned blocks that are listed of
/// the fork.
pub fn plans_may_be_written()
    ensures written { PlannedHeadsAreWritten }
    ensures listed { PlannedHeadsListAll }
{}

/// A block that is asked of a file's forms, the newest first, is the page at the place that is told
/// of it, where each incremental form has a page for each block that it lists.
pub fn origins_are_right()
    ensures { OriginsAreRight }
{}
