//! Laws of backups and of their restore, on what the commands do.
//!
//! What `run`, `combine`, `merge-incr`, `restore` and `replay` do stands in their own crates, each
//! for itself.
//! These laws join them: what a backup leaves is a directory that `verify` takes
//! (`specs/Finished.antt`); what `run` answered to be a backup is one that replay completes, over
//! the WAL that the run left (`Runs.antt`), alone or as a member of a chain (`Chains.antt`); what
//! `combine` makes of such a chain is one too (`CombinedChains.antt`); and `restore` makes of it,
//! and of every chain of such backups, and of what `merge-incr` made of some (`MergedSeries.antt`),
//! just what a replay of the whole WAL makes (`Restores.antt`, `ChainRestores.antt`, which also has
//! what runs leave to later ones). So does `drill`, which makes a store, runs a script on it and
//! restores its backups in one call (`Drills.antt`). Where runs were stopped from outside in
//! between, the same holds (`Stops.antt`). What the laws ask of a run's areas follows from
//! what stands before it and behind it (`Telling.antt`). And where nothing covers a part of the WAL
//! that an incremental backup needs, that part is older than what the summaries' area kept
//! (`Gaps.antt`). What the areas hold for which each command is done stands in `Success.antt` and
//! `RestoreSuccess.antt`.
//!
//! Left to others: what each command does, and the laws of copies (`fuzzy_copies`), of chains
//! (`chain_laws`) and of restores (`backup_restore`) on which these stand.
#![tactic(auto)]

mod laws;
mod success;

pub use laws::{
    backups_of_runs_are_sound, backups_of_runs_make_sound_chains, combined_chains_stay_sound,
    completed_chains_are_replays, completed_chains_are_replays_over_stops, drills_are_replays,
    finished_backups_are_listed, gaps_are_old, gaps_of_runs_are_old, runs_and_restores_are_replays,
    runs_leave_their_own, runs_of_inputs_are_runs, runs_tell_throughout, stops_leave_their_own,
};
pub use success::{
    completed_chains_are_restored, listed_backups_are_taken, stores_are_served, wals_are_sound,
};
