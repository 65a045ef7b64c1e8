//! What the directory of any backup has beside the files of its forks: the rows of its manifest,
//! the manifest's text, and the manifest itself, which is written last (PostgreSQL manual, Backup
//! Manifest Format).
//!
//! `file_row` makes the row of a file, `sort_rows` puts rows into order, `manifest_text` writes
//! those of a backup, and `publish` writes such a text behind a sync, which a sync follows; where
//! that fails, it is taken away again. `is_empty` looks whether an area can take a backup.
//! `specs/Directory.antt` says what rows list and what a directory has, `specs/Area.antt` what
//! writing leaves of an area.
//!
//! Left to others: the files of the forks and the label (`backup_sending`, `combine`), and the
//! grammar of a manifest (`manifest`).
#![tactic(auto)]

mod empty;
mod publishing;
mod rows;
mod text;

pub use empty::is_empty;
pub use publishing::{MANIFEST, publish};
pub use rows::{file_row, sort_rows};
pub use text::manifest_text;
