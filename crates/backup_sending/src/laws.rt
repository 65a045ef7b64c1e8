//! Laws of backups: each is the contract of a function that does nothing.

ghost use Rattle.backup_sending.specs.Laws.{FullBackupsAreSound, CheckpointsHaveRedoPoints};
ghost use Rattle.backup_sending.specs.Laws.{BackupsEndBehind, RedoPointsAreOwn};

/// The copy of a finished backup is sound for every later history, so that replay from its start on
/// completes it.
pub fn full_backups_are_sound()
    ensures { FullBackupsAreSound }
{}

/// A worker's checkpoint leaves its redo point, which is one of the run's own entries; and what a
/// worker saw before it ended its backup, it saw behind the backup's start and before its end.
pub fn copies_are_seen()
    ensures starts { CheckpointsHaveRedoPoints }
    ensures ends { BackupsEndBehind }
    ensures own { RedoPointsAreOwn }
{}
