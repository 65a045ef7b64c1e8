//! The store as a machine of steps, over which the laws of full and of incremental backups stand
//! for every list of steps.
//!
//! What the machine holds stands in `specs/State.antt`, what each step leaves and answers in
//! `Steps.antt`, how an incremental backup is planned and what it makes over an earlier one in
//! `Increments.antt`, and why a command is refused in `Refusals.antt`. Laws of their own
//! (`Laws.antt`) say of every list of steps that each finished full backup is sound and that each
//! incremental one extends sound copies to sound ones, also for each later history, and that replay
//! of the WAL over a chain of backups gives what the whole WAL gives. The other modules do in
//! memory what a step has to do with pages, items, records and summaries (`InMemory.antt`).
//!
//! Left to others: the machine in memory that takes the steps (`core_machine`); and the running
//! store, its locks, devices and flushes, which stand on the same laws of `history` and
//! `fuzzy_copies` and not on this machine.
#![tactic(auto)]

mod form;
pub mod increment;
pub mod judge;
pub mod kinds;
mod laws;
pub mod log;
mod reply;
mod step;
pub mod stores;
pub mod summaries;
pub mod touching;

pub use laws::{
    finished_backups_are_sound, finished_backups_stay, machines_keep_their_facts,
    published_summaries_are_honest, restored_chains_are_whole,
};
pub use reply::{Lengths, Receipt, Refusal, Reply, Wrote};
pub use step::{Asked, Step, Work};
