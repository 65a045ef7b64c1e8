//! Laws of success: when a command is done, as contracts of functions that do nothing.

ghost use Rattle.backup_laws.specs.RestoreSuccess.{CompletedChainsAreRestored};
ghost use Rattle.backup_laws.specs.Success.{AcceptedChainsAreCombined, AcceptedSeriesAreMerged};
ghost use Rattle.backup_laws.specs.Success.{CoveredRangesAreTold};
ghost use Rattle.backup_laws.specs.Success.{ListedBackupsAreVerified, NewStoresAreMade};
ghost use Rattle.backup_laws.specs.Success.{NewWalsAreSound, RunsLeaveSoundWals, ScriptsAreRun};
ghost use Rattle.backup_laws.specs.Success.{SoundStreamsAreFollowed, SoundWalsAreReplayed};

use backup_label::labels_are_read_in_one_way;
use backup_restore::directories_hold_one_store;
use chain_check::{chains_have_one_answer, directories_have_one_answer};
use chain_laws::{
    chains_are_sound_alike, full_backups_are_sound_chains, increments_extend_sound_chains,
    sound_chains_stay_sound,
};
use combine::{combined_directories_are_chains, combined_directories_hold_the_same};
use manifest::manifests_are_read_again;
use merge_laws::{merged_directories_are_members, merged_directories_stand_for_series};
use series_check::series_have_one_answer;
use shared_summaries::answers_sum_up;

/// A WAL is sound that is read to its end, and whose entries can be applied: so is the one that
/// `init` made, and the one that a run left which closed its store, unless it goes on at its end
/// over a missing file.
pub fn wals_are_sound()
    ensures new { NewWalsAreSound }
    ensures left { RunsLeaveSoundWals }
{}

/// Where areas tell that they hold what a command asks for, it refuses nothing: it is done, unless
/// an area isn't handed out, a device fails or memory runs out. `init` asks for no file in `wal`
/// and `sums`; `run` for a script of the grammar and a sound WAL with an entry; `replay` and
/// `follow` ask for a sound WAL and for an output that holds no file; `walsummary` for summaries
/// that cover the range.
pub fn stores_are_served()
    ensures made { NewStoresAreMade }
    ensures run { ScriptsAreRun }
    ensures replayed { SoundWalsAreReplayed }
    ensures followed { SoundStreamsAreFollowed }
    ensures told { CoveredRangesAreTold }
{}

/// So `verify` is done over a directory that is as its manifest lists it, and `combine` over such
/// directories that are accepted as a chain, and `merge-incr` over such that are accepted as a
/// series, where their files' names are text, to an output that holds no file.
pub fn listed_backups_are_taken()
    ensures verified { ListedBackupsAreVerified }
    ensures combined { AcceptedChainsAreCombined }
    ensures merged { AcceptedSeriesAreMerged }
{
    // known: what is as listed, and what is accepted, isn't refused
    directories_have_one_answer();
    chains_have_one_answer();
    series_have_one_answer();
}

/// `restore` is done, and leaves just the files of what the whole WAL makes up to the same place,
/// unless an area isn't handed out, a device fails or memory runs out: over each chain of completed
/// backups that is accepted, and a sound WAL that goes on from what the latest of their runs left,
/// to an output that holds no file, up to each place from the last backup's end to the WAL's end.
pub fn completed_chains_are_restored()
    ensures { CompletedChainsAreRestored }
{
    // known: what is as listed, and what is accepted, isn't refused; and the same as of chains that
    // were restored
    chains_have_one_answer();
    manifests_are_read_again();
    labels_are_read_in_one_way();
    directories_have_one_answer();
    directories_hold_one_store();
    increments_extend_sound_chains();
    full_backups_are_sound_chains();
    sound_chains_stay_sound();
    answers_sum_up();
    combined_directories_hold_the_same();
    combined_directories_are_chains();
    merged_directories_stand_for_series();
    merged_directories_are_members();
    chains_are_sound_alike();
}
