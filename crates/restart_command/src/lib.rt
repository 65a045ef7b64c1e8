//! The command `restart`: it brings the WAL and the data areas of a site's store back after a stop,
//! such as a power cut.
//!
//! What it changes, why it comes to its answer, what it prints and how it ends stand in
//! `specs/Restart.antt`: it asks for the areas of a store, reads the settings of its WAL, and
//! brings the store back by these. Settings that can't be read change nothing. The areas go back in
//! any case, and no other area changes.
//!
//! Left to others: how a store is brought back (`store_restart`), the settings of a WAL
//! (`recovery`), texts and statuses of faults (`command_base`), and where the site comes from
//! (`pgbackup_cli`).
#![tactic(auto)]

mod command;
mod lending;
mod telling;

pub use command::{RestartFault, restart};
pub use telling::{restart_status, restart_text};
