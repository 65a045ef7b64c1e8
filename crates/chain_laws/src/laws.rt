//! Laws of chains: each is the contract of a function that does nothing.

ghost use Rattle.chain_laws.specs.Laws.{IncrementsExtendSoundChains, FullBackupsHoldTheirCopies};
ghost use Rattle.chain_laws.specs.Laws.{FullBackupsAreSoundChains, SoundChainsStaySound};
ghost use Rattle.chain_laws.specs.Laws.{ChainsCombinedAlikeAreSoundAlike};

use backup_restore::{directories_hold_one_store, stores_are_held_by_their_files};
use incr_file::{heads_are_read_as_written, plans_may_be_written};

/// The law of incremental copies, from directories: an incremental backup extends each sound chain
/// of the same history that begins at its start or before it, and from whose start on, or from an
/// earlier place on, its summary tells what changed. What comes of it is sound up to the later of
/// both ends.
pub fn increments_extend_sound_chains()
    ensures { IncrementsExtendSoundChains }
{
    // known: files are read as they were written, and plans may be written
    heads_are_read_as_written();
    plans_may_be_written();
}

/// The directory of a full backup is a chain of one that holds the backup's copy, and is sound
/// where that copy is.
pub fn full_backups_are_sound_chains()
    ensures held { FullBackupsHoldTheirCopies }
    ensures sound { FullBackupsAreSoundChains }
{
    // known: the files of a store hold it, by themselves as in a chain of one
    stores_are_held_by_their_files();
}

/// A sound chain stays sound as the history goes on.
pub fn sound_chains_stay_sound()
    ensures { SoundChainsStaySound }
{}

/// A chain that is combined to the same segment files as a sound one is sound: so is the directory
/// that a sound chain was combined to, as a chain of one.
pub fn chains_are_sound_alike()
    ensures { ChainsCombinedAlikeAreSoundAlike }
{
    // known: the same segment files hold the same store
    directories_hold_one_store();
}
