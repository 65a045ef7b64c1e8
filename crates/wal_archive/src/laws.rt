//! What reading and writing an archive have to do with one another.

ghost use Rattle.wal_archive.specs.Laws.{FilesAreAnArchive, EntriesAreFair, GivesWhatStands};
ghost use Rattle.wal_archive.specs.Laws.{HeldIsRead, WrittenIsRead, LeftIsKept, WalIsKept};
ghost use Rattle.wal_archive.specs.Laws.{LeftEndsBefore};

/// The bytes, files and ends of the archive that files are fit one another, whatever the files.
pub fn files_are_an_archive()
    ensures { FilesAreAnArchive }
{}

/// The reading of entries gives an entry the place that it was told.
pub fn entries_are_fair()
    ensures { EntriesAreFair }
{}

/// An entry is given behind a tip exactly where its bytes stand there, over pages and segments, and
/// are taken.
pub fn what_stands_is_given()
    ensures { GivesWhatStands }
{}

/// Entries that are read are read in each archive that holds the same bytes up to their end.
pub fn what_is_held_is_read()
    ensures { HeldIsRead }
{}

/// What is written behind an archive's end is read behind what was there, over pages and segments,
/// also after a write that failed.
pub fn written_is_read()
    ensures { WrittenIsRead }
{}

/// After a write behind its end that failed the entries of an archive are read still.
pub fn left_is_kept()
    ensures { LeftIsKept }
{}

/// The entries of a WAL are kept, with zeros alone from where the next one would start.
pub fn wal_is_kept()
    ensures { WalIsKept }
{}

/// After a write, whatever it answered, nothing is held behind both its end and that of what was
/// held before.
pub fn left_ends_before()
    ensures { LeftEndsBefore }
{}
