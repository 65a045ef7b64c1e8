//! The machine of steps in memory: its partitions, its workers with their backups under way, and
//! the finished backups.
//!
//! `Machine` is made to be plain and not fast: it holds and answers what the specs of `store_core`
//! say (`specs/Shown.antt`). `run_steps` takes steps in turn.
//!
//! Left to others: what the steps are, what each leaves and answers, the laws over every list of
//! them, and what is done with pages, items, records and summaries (`store_core`).
#![tactic(auto)]

mod backup;
mod crew;
mod inserting;
mod machine;
mod over;
mod pool;
mod running;

pub use machine::Machine;
pub use over::{FinishedBackup, SentBlocks};
