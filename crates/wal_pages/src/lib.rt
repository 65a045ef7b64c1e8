//! The pages of the WAL: where the bytes of entries stand among the heads of pages, how an entry
//! is cut over pages and segments, and the tests of a page's head.
//!
//! Flat bytes, those that are no page head, are numbered. `place` leads from a number to a place
//! and `flat_before` back, for each segment size; where an entry starts and ends, and how many of
//! its bytes are still to come on a page, are told by these two. `spread` gives the archive's
//! bytes of an entry, and `laws` says that each of the entry's bytes stands there at its place.
//! `check_head` gives the first test that a head doesn't pass.
//!
//! The module `wal_heads` reads the head of an entry: its header and what it announces.
//!
//! Left to others: what an entry says and how it is written (`wal_record`), and which bytes an area
//! of files holds (`wal_archive`).
#![tactic(auto)]

mod cutting;
mod heads;
mod laws;
mod layout;
mod places;
pub mod wal_heads;

pub use heads::{HeadFault, head_fault, is_first_page};
pub use laws::{
    entries_stand_at_multiples_of_eight, entry_bytes_stand_in_order, places_are_found_again,
    written_heads_pass,
};
pub use layout::Layout;
pub use places::{flat_before, head_size, place};
