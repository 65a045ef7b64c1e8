//! What a stop may leave of the segment files of forks.
//!
//! Between two syncs of an area a stop, such as a power cut, may leave torn pages, lose files that
//! were made, and bring back what was cut off or removed. `specs/Left.antt` says what it leaves all
//! the same: the pages that a store had at a place in the log, where no entry from there on whose
//! WAL is flushed changes them, and the forks that none of these creates or removes. It is said of
//! the bytes in files and not of a store, since what a stop leaves may hold none: files may be
//! short, and a later one may be there where an earlier one isn't. `specs/Keeps.antt` says which
//! events keep that.
//!
//! The crate has laws alone. It knows no entries: a `Base` has what they change.
//!
//! Left to others: what a write, a cut, a removal and a sync of an area let a stop leave (`vault`),
//! which events the calls on a store in segment files are (`rel_files`), and which blocks entries
//! change.
#![tactic(auto)]

mod laws;

pub use laws::{
    calls_keep_in_turn, calls_keep_what_stays, events_keep_what_stays, held_stores_have_what_stays,
    synced_files_have_what_stays,
};
