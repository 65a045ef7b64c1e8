//! The archive of WAL: a cursor that gives its entries in order, over pages and segments, and says
//! where the archive ends and how it is damaged.
//!
//! Which entries a WAL has is said in `specs/Wal.antt`: `IsWal` gives its entries and the tip with
//! which it ends, `IsDamaged` the damage behind some entries, and `IsWalFrom` and `IsDamagedFrom`
//! the same from a place on. That a WAL has one reading or one damage is the law
//! `archive_is_read_in_one_way`. Why a call fails is said once, in `specs/Causes.antt`.
//!
//! A cursor makes one step a call (`specs/Cursor.antt`), and each step speaks of the files as they
//! are then. A caller that goes through the archive keeps `ReadsOn`; `proofs/Passing.antt` leads
//! from it to `IsWal` at the end and to `IsDamaged` at damage. A cursor is made from the settings
//! of the WAL (`specs/Settings.antt`), which `read_settings` takes from the names of the files,
//! the file `settings` and the first page of the first segment. The module `wal_pieces` gives so
//! many entries at once from a place on.
//!
//! Left to others: how an entry is written (`wal_record`), where its bytes stand (`wal_pages`),
//! the reading rules and the reading of bytes (`wal_archive`), the names of segment files and
//! their size (`lsn_core`), the area and its failures (`vault`), and what the entries do to a
//! store (`history`). Nothing here changes an area.
#![tactic(auto)]

mod cursor;
mod fault;
mod file_name;
mod front;
mod laws;
mod names;
mod settings;
mod step;
pub mod wal_pieces;

pub use cursor::WalCursor;
pub use fault::WalFault;
pub use file_name::FileName;
pub use laws::{
    archive_is_read_in_one_way, archive_is_read_in_one_way_from_a_place,
    settings_are_read_in_one_way,
};
pub use settings::{read_settings, settings_text};
pub use wal_archive::{Broken, Damage};
