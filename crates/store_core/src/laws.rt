//! Laws of the machine: each is the contract of a function that does nothing.

ghost use Rattle.store_core.specs.Laws.{MachinesKeepTheirFacts, PublishedSummariesAreHonest, FinishedBackupsAreSound, FinishedBackupsStay, RestoredChainsAreWhole};

/// After every list of steps each partition keeps its facts: its frames are its part of what the
/// history makes, its disk differs from them only where something is dirty or pending, which
/// entries from its point on caused, and the disk covers the history from there on.
pub fn machines_keep_their_facts()
    ensures { MachinesKeepTheirFacts }
{}

/// After every list of steps each published summary says what the entries of its range say.
pub fn published_summaries_are_honest()
    ensures { PublishedSummariesAreHonest }
{}

/// After every list of steps each finished full backup is sound for the history, from its start to
/// its end; and each finished incremental one extends to a sound copy each sound copy that starts
/// where it tells and ends by its start, such as the store of each accepted chain that it follows.
pub fn finished_backups_are_sound()
    ensures { FinishedBackupsAreSound }
{}

/// A finished backup stays finished, and the history only goes on: so the backup is sound for each
/// later history.
pub fn finished_backups_stay()
    ensures { FinishedBackupsStay }
{}

/// Of each chain of finished backups, a full one and incremental ones behind it, the store is
/// sound; and replay of the WAL that the machine wrote, over that store and from the last backup's
/// start on, gives what replay of the whole WAL from nothing gives, for each place from that
/// backup's end on; and that is what the history made up to there.
pub fn restored_chains_are_whole()
    ensures { RestoredChainsAreWhole }
{}
