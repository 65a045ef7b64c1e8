//! The archive of a WAL: segment files, seen as the bytes at places, over pages and segments
//! (PostgreSQL manual, WAL Internals).
//!
//! `specs/Rules.antt` says what stands behind an end of an archive, or how it is damaged there, as
//! a function of the archive that files are; `specs/Stands.antt` says the same of an entry in the
//! terms of pages, and `laws` that an entry is given exactly where it stands. `next_bytes` and
//! `set_bytes` answer what the rules say, over an area that may fail: an entry on one page is one
//! read, and other files are looked at only where no entry shows. What is written behind an
//! archive's end, as `specs/Writing.antt` lays it out, is read again behind what was there, also
//! after writes that failed.
//!
//! Left to others: which bytes an entry has (`wal_record`) and where they stand (`wal_pages`), the
//! cursor (`wal_reader`) and the writer (`wal_writer`).
#![tactic(auto)]

mod ends;
mod fault;
mod found;
mod front;
mod heads;
mod laws;
mod long;
mod run;
mod segments;
mod stops;
mod taking;
mod zeros;

pub use fault::{Broken, Damage, ReadFault};
pub use found::{next_bytes, set_bytes};
pub use laws::{
    entries_are_fair, files_are_an_archive, left_ends_before, left_is_kept, wal_is_kept,
    what_is_held_is_read, what_stands_is_given, written_is_read,
};
pub use run::is_segment;
pub use segments::segment_in;
