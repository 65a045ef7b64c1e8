//! Lines of scripts, run on an open store: what a worker is answered, and what that does to the
//! store.
//!
//! `run_worker` runs a worker's lines on an open store that workers share: each answer is a fact of
//! the beginning of the history that the worker had seen when it was given, whatever other workers
//! do meanwhile, and the entries of its accepted commands are those that its answers name, in order
//! (`specs/Run.antt`). The areas of its backups are the worker's own: what each answer leaves of
//! them stands beside what it says of the history. Two of them are lent at once to an incremental
//! backup (`increments`). What holds of every run are laws (`laws`), among them that the answers of
//! all workers are joined in the finished history. `run_crew` runs the workers of a crew side by
//! side, each as
//! `run_worker` does (`specs/Crewing.antt`).
//!
//! Left to others: what a line says (`scripts`), whether a command may be done, its place in the
//! WAL, checkpoints and what is flushed (`shared_store`), what a backup does, and when a gate is
//! called in it (`backup_sending`, `incr_backup`), which summaries are published, and the lock of
//! their area (`shared_summaries`), where the areas come from, and printing answers.
#![tactic(auto)]

mod backups;
mod crewing;
mod increments;
mod laws;
mod run;
mod summaries;

pub use crewing::{Worker, run_crew};
pub use laws::{
    answers_stay, answers_tell_backups, answers_tell_incrs, crew_is_joined, taken_or_refused,
};
pub use run::run_worker;
