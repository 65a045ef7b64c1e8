//! What is appended and flushed is read again.

ghost use Rattle.wal_writer.specs.Laws.{AppendedComesNext, AddedEntriesWait};
ghost use Rattle.wal_writer.specs.Laws.{FailedFlushesWait, FlushedEntriesAreRead};
ghost use Rattle.wal_writer.specs.Stops.{StopsKeepEntries, SettledIsHeld};
ghost use Rattle.wal_writer.specs.Stops.{WritesKeepRest, StopsKeepRest};
ghost use Rattle.wal_writer.specs.Stops.{SettledHasRest, NothingNewIsRead};

/// An entry that is appended is one that comes next, and is read as itself.
pub fn appended_comes_next()
    ensures { AppendedComesNext }
{}

/// An entry that comes next and is added waits behind the others.
pub fn added_entries_wait()
    ensures { AddedEntriesWait }
{}

/// After a flush that failed the same entries wait.
pub fn failed_flushes_wait()
    ensures { FailedFlushesWait }
{}

/// After a flush the archive is read as the entries before and those that waited up to where it
/// went, over pages and segments, also where a flush before had failed. The others wait behind.
pub fn flushed_entries_are_read()
    ensures { FlushedEntriesAreRead }
{}

/// Entries up to the flushed position are read of what each stop during a flush leaves; and after a
/// flush of what each stop leaves that is the archive as it is read.
pub fn stops_keep_entries()
    ensures moments { StopsKeepEntries }
    ensures settled { SettledIsHeld }
{}

/// Nothing is written behind the end of what is flushed: from there on the archive is as it was,
/// and so each stop during a flush leaves it. No entry is read behind that end but one that was
/// read there before.
pub fn nothing_is_written_behind()
    ensures files { WritesKeepRest }
    ensures moments { StopsKeepRest }
    ensures settled { SettledHasRest }
    ensures read { NothingNewIsRead }
{}
