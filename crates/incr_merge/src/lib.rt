//! Several consecutive incremental backups merged into one, which stands for them in a chain (the
//! directories: PostgreSQL manual, pg_combinebackup; one in the place of several: profile).
//!
//! `merge_incr` writes the directory that a series is merged to: each file that the newest member
//! lists, an incremental one merged, the label with the prior of the oldest one, and a manifest of
//! its own, which is written last. `specs/Calls.antt` says what the call answers and what stands
//! after each refusal. The members' areas are lent, and two members may have one. The labels are
//! held whole, and of an incremental file its head and where its pages stand.
//!
//! Left to others: which series are accepted (`series_check`), what a series is merged to
//! (`merge_laws`), what the head of a merged file is (`series_files`), where the pages of a file
//! stand (`chain_files`), and how files are written and listed (`directory_files`).
#![tactic(auto)]

mod files;
mod label;
mod merging;
mod parts;
mod targets;

pub use merging::merge_incr;
