//! The command `run`: it reads the script of an input, runs it on the store of a site, and tells
//! what each line was answered. A script that was made is run in the same way, and no input is
//! read.
//!
//! What a run does, over the whole outside and to a history, stands in `specs/Run.antt`: what
//! running a script comes to, and what reading it adds. It asks for the areas of a store and of its
//! backups once its script is taken and all memory that a refusal would need is there, and gives
//! them back in any case.
//!
//! Left to others: the grammar of scripts (`scripts`), the run of a line (`crew`), an open store
//! (`store_lifecycle`, `shared_store`), texts and statuses of faults (`command_base`), and where
//! the input and the site come from (`pgbackup_cli`).
#![tactic(auto)]

mod command;
mod input;
mod lending;
mod running;
mod seats;

pub use command::{run, run_gated, run_script};
