//! Whether the directory of a backup is what its manifest lists (PostgreSQL manual,
//! pg_verifybackup), and whether several such backups make a chain (pg_combinebackup).
//!
//! `check_dir` reads a directory's files and answers the `Member` that it is, exactly where it is
//! as listed (`specs/Directory.antt`), and otherwise a `Refusal`: its first fault, in the order of
//! `specs/Refusals.antt`, and how many files were found as listed before it. Each listed file is
//! read whole, in pieces, four side by side where that is faster (`file_sums`), and of an
//! incremental file the head once more. `check_chain` judges members by their labels and manifests
//! (`specs/Chain.antt`). `laws` say that a directory and a chain have one answer, that in a
//! directory that is as listed the incremental files have their form, and that such a directory is
//! told by the sum in which its manifest ends (`specs/Collisions.antt`).
//!
//! Left to others: what manifest, label and the head of an incremental file say (`manifest`,
//! `backup_label`, `incr_file`), how a head is read (`chain_files`), what the pages of the files
//! hold, whether files have the sums that are listed (`file_sums`), and what a chain is combined
//! to.
#![tactic(auto)]

mod chain;
mod dir;
mod extra;
mod fault;
mod forms;
mod held;
mod label;
mod laws;
mod link;
mod listing;
mod member;
mod refusal;
mod rows;

pub use chain::{ChainRefusal, MOST_MEMBERS, check_chain};
pub use dir::check_dir;
pub use fault::{ChainFault, FileWhy, ManifestWhy};
pub use laws::{chains_have_one_answer, directories_have_one_answer, one_sum_is_one_directory};
pub use link::LinkFault;
pub use member::Member;
pub use refusal::Refusal;
