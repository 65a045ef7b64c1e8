//! Combining a chain of backups into a full one (PostgreSQL manual, pg_combinebackup).
//!
//! `combine` writes the directory that a chain stands for: each file that the newest member lists,
//! rebuilt where it is incremental, the label without the lines of an incremental backup, and a
//! manifest of its own, which is written last. `specs/Combined.antt` says what a chain is combined
//! to,
//! `specs/Calls.antt` what the call answers and what stands after each refusal. The members' areas
//! are lent, and two members may have one. Only the label is held whole, and of an incremental file
//! where its pages stand. `laws` say that the directory stands for the same files of pages as the
//! chain, and is a chain of one.
//!
//! Left to others: whether the chain is one (`chain_check`), where the pages of a file stand
//! (`chain_files`), how files are written and listed (`directory_files`), and the writing of the
//! manifest (`backup_files`).
#![tactic(auto)]

mod combining;
mod fault;
mod files;
mod label;
mod laws;
mod targets;

pub use combining::combine;
pub use fault::CombineFault;
pub use laws::{combined_directories_are_chains, combined_directories_hold_the_same};
