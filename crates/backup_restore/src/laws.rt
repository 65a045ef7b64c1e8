//! What holds of every reading of a WAL that begins at one of its entries, of every restore of a
//! sound copy, of the store that segment files hold, and of two restores of the same files.

ghost use Rattle.backup_restore.specs.Completed.{RestoresAreReplays, SoundCopiesAreCompleted};
ghost use Rattle.backup_restore.specs.Directories.{AlikeFilesHoldOneStore, FilesHoldOneStore};
ghost use Rattle.backup_restore.specs.Directories.{DirectoriesAreCombinedToThemselves};
ghost use Rattle.backup_restore.specs.Directories.{PlainDirectoriesAreChains, StoresAreHeld};
ghost use Rattle.backup_restore.specs.Laws.{RestoresHaveOneAnswer, RestoresEndAlike};
ghost use Rattle.backup_restore.specs.Onwards.{EntriesAreFoundAtTheirStart, ReadingGoesOn};
ghost use Rattle.backup_restore.specs.Onwards.{ReadingFromEntryIsRest};

/// Where a WAL is read from its beginning and has an entry, a cursor that is set at this entry's
/// start finds it and then all that stand behind it, whatever the files are.
pub fn reading_goes_on_from_entries()
    ensures found { EntriesAreFoundAtTheirStart }
    ensures on { ReadingGoesOn }
    ensures rest { ReadingFromEntryIsRest }
{}

/// A restore of a sound copy makes what a replay of the whole WAL to the same place makes, and
/// leaves the files of that.
pub fn sound_copies_are_completed()
    ensures completed { SoundCopiesAreCompleted }
    ensures replays { RestoresAreReplays }
{}

/// Segment files hold one store at most, and those that are alike hold the same.
pub fn directories_hold_one_store()
    ensures one { FilesHoldOneStore }
    ensures alike { AlikeFilesHoldOneStore }
{}

/// Files that have the segment files of a store, and no other ones, hold that store. Without
/// incremental files a directory is as a chain of one what it is on its own.
pub fn stores_are_held_by_their_files()
    ensures held { StoresAreHeld }
    ensures alike { DirectoriesAreCombinedToThemselves }
    ensures chain { PlainDirectoriesAreChains }
{}

/// Two restores of the same files of a chain and of the WAL, up to the same target, answer the same
/// and leave the same files.
pub fn restores_have_one_answer()
    ensures { RestoresHaveOneAnswer }
{}

/// Two restores of the same files, up to the same target, are both done, or refused for one reason:
/// so each refusal comes exactly where its case holds. Want of memory and failing devices are
/// aside.
pub fn restores_end_alike()
    ensures { RestoresEndAlike }
{}
