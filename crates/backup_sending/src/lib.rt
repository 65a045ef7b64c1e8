//! What a backup sends of an open store into an area (PostgreSQL manual, pg_basebackup; Backup
//! Manifest Format): a full backup, and the files of an incremental one.
//!
//! `take_full` copies all pages into the files of an area while they change: each fork as it is
//! listed and each block as it is copied at some moment between the start of the backup's
//! checkpoint and its end, with entries of other workers between them (`specs/Entries.antt`).
//! `specs/Directory.antt` says what a directory then holds: files of pages, the label and the
//! manifest, which is written last. `specs/Backup.antt` says what is answered, and what stands
//! after each refusal. `send_store` copies of each file what changed since a prior backup's start,
//! by a summary of the WAL since then and the prior's manifest (`Basis`), or the whole file where
//! that is better; `specs/Sent.antt` says which files there are and what stands in them. Between
//! its steps on the store a backup passes a `Gate`, with no lock held. `laws` says that the pages
//! of a full backup are a sound copy for every history that goes on from what its worker has seen.
//!
//! Left to others: what the store answers a copier (`shared_store`), what makes a copy sound
//! (`fuzzy_copies`), the backup round the files of an incremental one, which begins and ends as a
//! full one does (`incr_backup`), the plan and the head of an incremental file (`incr_file`), the
//! texts of label and manifest (`backup_label`, `manifest`), and judging a directory.
#![tactic(auto)]

mod basis;
mod done;
mod files;
mod forks;
mod full;
mod gate;
mod laws;
mod listed;
mod listing;
mod pages;
mod parts;
mod planning;
mod sending;

pub use basis::Basis;
pub use done::Done;
pub use full::{check_empty, finish, take_full};
pub use gate::{Gate, OpenGate, StepKind};
pub use laws::{copies_are_seen, full_backups_are_sound};
pub use sending::send_store;
