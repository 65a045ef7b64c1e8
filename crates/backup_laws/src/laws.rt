//! Laws of backups and of their restore: each is the contract of a function that does nothing.

ghost use Rattle.backup_laws.specs.Finished.{FinishedBackupsAreListed, FinishedIncrementsAreListed};
ghost use Rattle.backup_laws.specs.Finished.{AnsweredBackupsAreListed, AnsweredBackupsAreVerified};
ghost use Rattle.backup_laws.specs.Finished.{AnsweredNamesAreLines};
ghost use Rattle.backup_laws.specs.Gaps.{FilesKeepOneList, PublishedAreKept, OldOnesExpire, GapsAreOld};
ghost use Rattle.backup_laws.specs.Gaps.{AnswersAreCovered, RefusedGapsAreOld, GapsOfRunsAreOld};
ghost use Rattle.backup_laws.specs.Runs.{BackupsOfRunsAreSound};
ghost use Rattle.backup_laws.specs.Chains.{FullBackupsOfRunsAreSound, IncrementsOfRunsExtendChains};
ghost use Rattle.backup_laws.specs.Chains.{RunsKeepChainsSound};
ghost use Rattle.backup_laws.specs.Restores.{RunsAndRestoresAreReplays, RestoresAreAsReplays};
ghost use Rattle.backup_laws.specs.Restores.{LaterRestoresAreReplays, RunsOfInputsAreRuns};
ghost use Rattle.backup_laws.specs.ChainRestores.{CompletedChainsAreReplays, RunsLeaveWholeWals};
ghost use Rattle.backup_laws.specs.ChainRestores.{RunsGoOn, RunsOfScriptsGoOn};
ghost use Rattle.backup_laws.specs.ChainRestores.{RunsLeaveTheirOwn, NewStoresAreOwn};
ghost use Rattle.backup_laws.specs.ChainRestores.{RunsSinceInitAreInTurn};
ghost use Rattle.backup_laws.specs.Stops.{RestartsHoldSurvivors, StopsGoOn, StopsFindOwn};
ghost use Rattle.backup_laws.specs.Stops.{RunsOverStopsAreInTurn};
ghost use Rattle.backup_laws.specs.Stops.{CompletedChainsAreReplaysOverStops};
ghost use Rattle.backup_laws.specs.Telling.{RunsTellThroughout};
ghost use Rattle.backup_laws.specs.CombinedChains.{CombinedChainsStaySound};
ghost use Rattle.backup_laws.specs.Drills.{DrillsAreReplays, DrillsTakeTheirBackups};

use backup_label::labels_are_read_in_one_way;
use backup_restore::directories_hold_one_store;
use chain_check::directories_have_one_answer;
use chain_laws::{
    chains_are_sound_alike, full_backups_are_sound_chains, increments_extend_sound_chains,
    sound_chains_stay_sound,
};
use combine::{combined_directories_are_chains, combined_directories_hold_the_same};
use incr_file::{heads_are_read_as_written, plans_may_be_written};
use manifest::manifests_are_read_again;
use merge_laws::{merged_directories_are_members, merged_directories_stand_for_series};
use shared_summaries::answers_sum_up;
use vault::Vault;

/// What a finished backup left, full or incremental, is a directory as its manifest lists it:
/// `verify` takes it, and so does the check before a restore. So it is, durably, of each backup
/// that a run answered, where its areas tell their files all the while: `verify` of what the run
/// left takes it, unless its area isn't handed out, its device fails or memory runs out.
pub fn finished_backups_are_listed()
    ensures full { FinishedBackupsAreListed }
    ensures incremental { FinishedIncrementsAreListed }
    ensures answered { AnsweredBackupsAreListed }
    ensures verified { AnsweredBackupsAreVerified }
{
    // known: the heads of plans may be written, and are read as they were; and a directory has one
    // answer
    heads_are_read_as_written();
    plans_may_be_written();
    directories_have_one_answer();
}

/// Each backup that a run answered with `backup START END` is the directory of a copy that replay
/// of the WAL from START on completes, for each place from END on, over the WAL that the run left.
pub fn backups_of_runs_are_sound()
    ensures { BackupsOfRunsAreSound }
{}

/// Each full backup that a run answered is a sound chain of one for the history that the run came
/// to, where its areas tell their files all the while. Each incremental one names the start of its
/// prior backup as its prior LSN, and extends each sound chain of that history from there, up to
/// the later of both ends, where the area of summaries was honest and what the run found was tidy.
/// What was a sound chain before the run is one of its history, and all are sound for the WAL that
/// the run left.
pub fn backups_of_runs_make_sound_chains()
    ensures full { FullBackupsOfRunsAreSound }
    ensures incremental { IncrementsOfRunsExtendChains }
    ensures kept { RunsKeepChainsSound }
{
    // known: what extends a sound chain and keeps it sound, and what published summaries say
    increments_extend_sound_chains();
    full_backups_are_sound_chains();
    sound_chains_stay_sound();
    answers_sum_up();
}

/// What `combine` made of a sound chain of backups is a sound chain of one, which is accepted: the
/// full backup of its name, as its manifest lists it, from the newest member's start to its end.
pub fn combined_chains_stay_sound()
    ensures { CombinedChainsStaySound }
{
    // known: listed files have their forms, the combined ones stand for the same segment files and
    // are listed, and chains are sound by their segment files alone
    directories_have_one_answer();
    combined_directories_hold_the_same();
    combined_directories_are_chains();
    chains_are_sound_alike();
}

/// A backup that a run answered is restored to exactly what a replay of the whole WAL gives:
/// `restore` leaves just the files of what the WAL makes from nothing up to the same place, and
/// tells its numbers of forks and pages. So the command `replay` to the same target leaves the same
/// files, and prints the same behind its first word. And so it is over every WAL that goes on from
/// what the run left.
pub fn runs_and_restores_are_replays()
    ensures whole { RunsAndRestoresAreReplays }
    ensures alike { RestoresAreAsReplays }
    ensures later { LaterRestoresAreReplays }
{
    // known: a text is read as one manifest or label, listed files have their forms, and a chain
    // holds one store, which for a full backup alone is its copy
    manifests_are_read_again();
    labels_are_read_in_one_way();
    directories_have_one_answer();
    directories_hold_one_store();
    full_backups_are_sound_chains();
}

/// So it is of every chain of completed backups that `restore` restores with status 0, where the
/// areas tell their files, the runs closed their stores and the WAL is whole to an end. A backup is
/// completed that a run answered, or that `combine` or `merge-incr` made, with status 0, of
/// completed ones: `restore` leaves just the files of what the whole WAL makes up to the same
/// place. It doesn't matter in which order they were taken, combined and merged, under which names
/// they stand, what became of those that were combined or merged, and which runs came between and
/// behind them, as long as the WAL goes on: what `restore` accepts stands in the right order. What
/// these runs found has to be this program's own, which it is where nothing else writes `wal` and
/// `sums` (`runs_leave_their_own`).
pub fn completed_chains_are_replays()
    ensures { CompletedChainsAreReplays }
{
    // known: the same as of one backup, of a combined chain and of a merged series, and what makes
    // chains sound
    manifests_are_read_again();
    labels_are_read_in_one_way();
    directories_have_one_answer();
    directories_hold_one_store();
    increments_extend_sound_chains();
    full_backups_are_sound_chains();
    sound_chains_stay_sound();
    answers_sum_up();
    combined_directories_hold_the_same();
    combined_directories_are_chains();
    merged_directories_stand_for_series();
    merged_directories_are_members();
    chains_are_sound_alike();
}

/// What `drill` restored with status 0 is what a replay of its whole WAL makes: `o/drill` holds
/// just the files of that store, and the numbers of forks and pages and the sum that are told are
/// those of these files. Nothing is asked of directories: the run took all three backups, since the
/// restore took them, and the area of a backup that was refused has no manifest. All that is asked
/// is that the areas tell their files before the drill, and those of its backups behind it.
pub fn drills_are_replays()
    ensures replays { DrillsAreReplays }
    ensures backups { DrillsTakeTheirBackups }
{
    // known: the same of each chain of completed backups
    completed_chains_are_replays();
}

/// These laws speak of each script that was run, whether it was read or made, over areas that tell
/// their files. So they speak of `run`, of the script of its input; and the name of each backup
/// that it answered is one line, as they ask of a name.
pub fn runs_of_inputs_are_runs()
    ensures run { RunsOfInputsAreRuns }
    ensures lines { AnsweredNamesAreLines }
{}

/// What such chains ask of a run, earlier ones leave to it, where nothing else wrote `wal` and
/// `sums`. The WAL is whole as a run left it that closed its store. Whatever a run came to, stopped
/// or failed, the WAL goes on from what it found. And what a run finds is this program's own where
/// the WAL and `sums` are as `init` left them, or as a run did that found so itself and closed its
/// store, whether a worker of it was stopped or not. So of all runs since `init`, where each closed
/// its store, no more is asked than that each found `wal` and `sums` as the one before left them,
/// that their areas tell before each and behind it, and that no worker took a backup's name twice.
pub fn runs_leave_their_own()
    ensures whole { RunsLeaveWholeWals }
    ensures on { RunsGoOn }
    ensures made { RunsOfScriptsGoOn }
    ensures own { RunsLeaveTheirOwn }
    ensures first { NewStoresAreOwn }
    ensures all { RunsSinceInitAreInTurn }
{}

/// A run that was stopped from outside leaves to later ones what such chains ask, with a restart
/// behind it or without. Behind a restart with status 0 the WAL is just the first records of the
/// history that the run had come to, with all that were flushed. In both cases the WAL goes on from
/// what the run found, and what a later run finds there is this program's own, where the stopped
/// one had found so: what survived is tidy, and `sums` is honest for it. So of all runs since
/// `init`, of which some were stopped, those that closed their store are in turn. What a stop
/// leaves of `wal` and `sums` is asked (`StopLeft`): of the WAL all that was flushed, and of what
/// wasn't a beginning; of summaries those that stood there, and such of flushed entries.
pub fn stops_leave_their_own()
    ensures restarted { RestartsHoldSurvivors }
    ensures on { StopsGoOn }
    ensures own { StopsFindOwn }
    ensures all { RunsOverStopsAreInTurn }
{}

/// So the law of chains of completed backups holds over stops: of the backups of all runs since
/// `init` that closed their store, where each of the others was stopped from outside.
pub fn completed_chains_are_replays_over_stops()
    ensures { CompletedChainsAreReplaysOverStops }
{
    // known: the same of runs that are in turn
    completed_chains_are_replays();
}

/// The areas of a run tell their files behind each of its lines, as is asked above, where they tell
/// them when it begins and when it ends, and where of no name a worker took two backups, or one
/// before a try by which it was stopped.
pub fn runs_tell_throughout()
    ensures { RunsTellThroughout }
{}

/// Of an area of summaries all are kept that were kept before, and behind them all that are
/// published, but for old ones, of which the last one stays. So a place that `advance_covering`
/// finds uncovered below a redo point of the history is one that no summary kept before covers that
/// isn't old, below their greatest end or the first entry's start; and what it answers covers the
/// range up to its end. An incremental backup is refused for such a place alone, at or past the
/// prior backup's start and below its own.
pub fn gaps_are_old<V: Vault>()
    ensures one_list { FilesKeepOneList }
    ensures kept { PublishedAreKept }
    ensures expire { OldOnesExpire }
    ensures old { GapsAreOld V.Vault }
    ensures covered { AnswersAreCovered V.Vault }
    ensures refused { RefusedGapsAreOld V.Vault }
{}

/// So is the place for which a run refuses a line's incremental backup: no summary covers it that
/// the area kept when the run began and that isn't old.
pub fn gaps_of_runs_are_old()
    ensures { GapsOfRunsAreOld }
{}
