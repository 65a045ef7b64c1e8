//! Entries of the WAL: what they are, how they are written and read (PostgreSQL manual, WAL
//! Internals; access/xlogrecord.h), and how the end of a WAL, a tip, moves over them.
//!
//! `encode_record` gives the written form of an entry with its sum, which `specs/Spelling.antt`
//! says. `decode_record` is the reading of `specs/Decoding.antt`: the header's tests, then what the
//! announced bytes say, or the first why they are refused (`specs/Content.antt`). `laws` says that
//! this is just the grammar of `specs/Entry.antt`, that what is written is read again, that no
//! entry begins another, and that what is read is sound (`specs/Sound.antt`).
//!
//! Left to others: header and announcements as bytes (`wal_heads`), where entries stand
//! (`wal_pages`), what a page is (`pg_page`), which entries an archive has (`wal_archive`) and what
//! they do to a store (`history`). Nothing here calls an area.
#![tactic(auto)]

mod blocks;
mod content;
mod decode;
mod encode;
mod laws;
mod names;
mod parts;
mod places;
mod record;

pub use decode::{decode_record, is_own_redo};
pub use encode::encode_record;
pub use laws::{entries_are_read, entries_are_sound, written_is_read};
pub use places::{first_tip, tip_after, wal_limit};
pub use record::{BlockRef, Blocks, Body, Kind, Record, RecordFault, Rels, Why};
