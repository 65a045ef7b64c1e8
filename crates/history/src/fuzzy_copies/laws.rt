//! Laws of copies: each is the contract of a function that does nothing.

ghost use Rattle.history.specs.fuzzy_copies.Laws.{ReplayCompletesCopies, RecordsCompleteCopies, TakenCopiesAreSound, LogsAreWhole, LoggedCopiesAreSound, SoundCopiesAreRestored, TakenCopiesAreRestored, SoundCopiesStaySound, UntouchedBlocksStay, UntouchedPagesStay, EffectsTellBlocks, EffectsTellForks};

/// Replay from a sound copy gives what replay of the whole WAL from nothing gives, for each place
/// from the copy's end on: of a history's entries, and of the records of a WAL as they were read.
pub fn replay_completes_copies()
    ensures entries { ReplayCompletesCopies }
    ensures records { RecordsCompleteCopies }
{}

/// The law of full copies: a copy whose forks and blocks are each listed and copied at a moment of
/// its own, behind the start of a checkpoint, is sound.
pub fn taken_copies_are_sound()
    ensures { TakenCopiesAreSound }
{}

/// What a history's log is read back as: it makes what the history makes, and a copy that is sound
/// for the one is sound for the other.
pub fn logs_keep_copies_sound()
    ensures whole { LogsAreWhole }
    ensures sound { LoggedCopiesAreSound }
{}

/// A sound copy and the log from its start on give what the history made, for each place from the
/// copy's end on; so does each copy that was taken while entries were written.
pub fn copies_are_restored()
    ensures sound { SoundCopiesAreRestored }
    ensures taken { TakenCopiesAreRestored }
{}

/// A sound copy stays sound when entries are added behind it.
pub fn sound_copies_stay_sound()
    ensures { SoundCopiesStaySound }
{}

/// Entries that neither touch nor cut a block leave it, unless it is missing and they touch a later
/// block of its fork.
pub fn untouched_blocks_stay()
    ensures stay { UntouchedBlocksStay }
    ensures pages { UntouchedPagesStay }
{}

/// What entries do to a store is told block by block and fork by fork.
pub fn effects_tell_stores()
    ensures blocks { EffectsTellBlocks }
    ensures forks { EffectsTellForks }
{}
