//! The manifest of a backup: the file `backup_manifest`, which lists the backup's files with their
//! sizes and sums, and the range of the WAL that a restore needs (PostgreSQL manual, Backup
//! Manifest Format).
//!
//! `write_manifest` gives exactly the text of `specs/Text.antt`. `read_manifest` gives a manifest
//! exactly where the bytes are of the grammar, and otherwise the first cause to refuse them, in the
//! order of `specs/Reading.antt`: the lines, their sum, the JSON text, the version, the shape, the
//! kinds of sums, the timeline. Versions 1 and 2 are read, and 2 is written. `laws` says that what
//! is written is read back.
//!
//! Left to others: the sums of files and whether a directory holds what is listed, the label of a
//! backup, and JSON itself (the kit's `serde_json`).
#![tactic(auto)]

mod fault;
mod kinds;
mod laws;
mod lines;
mod listing;
mod order;
mod paths;
mod reading;
mod shape;
mod values;
mod writing;

pub use fault::ManifestFault;
pub use kinds::SumKind;
pub use laws::manifests_are_read_again;
pub use listing::{FileRow, Manifest};
pub use reading::read_manifest;
pub use writing::write_manifest;
