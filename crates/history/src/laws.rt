//! Laws of histories: each is the contract of a function that does nothing.

ghost use Rattle.history.specs.Laws.{HistoriesAreWrittenOn, WrittenIsApplied, SoundMayBeApplied, WritableMayBeApplied, FitCommandsAreDone, CommandsAreSaid};
ghost use Rattle.history.specs.Redo.{TestsChangeNothing};

/// A history that goes on is written on: what is written of its beginning stands.
pub fn histories_are_written_on()
    ensures { HistoriesAreWrittenOn }
{}

/// What a history is written as says what it does: replay of the records up to any place gives the
/// store that the entries up to there make.
pub fn written_is_applied()
    ensures { WrittenIsApplied }
{}

/// Replay that passes over deltas where the page's LSN is not below the entry's end gives what the
/// records say, over pages of no later LSN, such as those of an empty store.
pub fn tests_change_nothing()
    ensures { TestsChangeNothing }
{}

/// An entry that was read may be applied, and so may each that can be written.
pub fn entries_may_be_applied()
    ensures read { SoundMayBeApplied }
    ensures written { WritableMayBeApplied }
{}

/// A command that can be written, and in which no patch names the block of an earlier item, can be
/// done, and the entry that it is written as does the same.
pub fn commands_are_said()
    ensures done { FitCommandsAreDone }
    ensures said { CommandsAreSaid }
{}
