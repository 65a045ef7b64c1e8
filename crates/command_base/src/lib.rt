//! What the commands share: the outside that they work on, as one value (`specs/Outside.antt`), the
//! names of areas, whether one holds a file, what is printed of faults, and the exit status.
//!
//! Each text and each status is an equation of its fault (`specs/Faults.antt`,
//! `specs/Backups.antt`), so that a command's lines are those of its parts. Faults keep their
//! causes: what a fault means is said by the crate that answers it, and by the command that passes
//! it on.
//!
//! Left to others: the faults themselves (`wal_archive`, `recovery`), how areas are
//! lent (`vault`), and what each command does (`run_command`, `store_commands`, `chain_commands`).
#![tactic(auto)]

mod backups;
mod clear;
mod faults;
mod names;
mod status;

pub use backups::{
    gap_text, lsns_text, manifest_text, of_backup, overlap_text, systems_text, with_lsns,
    with_number,
};
pub use clear::{empty_area, is_clear};
pub use faults::{
    area_name, area_status, area_text, full_text, joined, refused_line, store_status, store_text,
    take_text, wal_status, wal_text,
};
pub use names::{backup_name, is_backup_name, names_of, output_name};
pub use status::Status;
