//! The files that a series of incremental backups is merged to, but for their pages.
//!
//! `is_rebuilt` says whether the merged file is plain, `merged_head` what its head is where it is
//! incremental (`specs/Heads.antt`). Both ask the members' files, the newest one first, down to the
//! first that isn't incremental; of each only the head is read, and one head is held at a time. The
//! members' areas are lent, and two members may have one.
//!
//! Left to others: what a head says (`incr_file`), which form stands for a series (`merged_forms`),
//! how a head is read and where pages stand (`chain_files`).
#![tactic(auto)]

mod answered;
mod joining;
mod seen;

pub use joining::{is_rebuilt, merged_head};
