//! Writing the WAL: entries are appended in memory, and flushed into the area's segment files.
//!
//! `WalState` owns the area. Contracts see a `Log` of `specs/Log.antt`: the tip behind all that was
//! appended, the place up to which all is flushed, and the archive's bytes between, over pages and
//! segments. An entry is appended just where it comes next, linked to the one before; `WalFull`
//! comes exactly where it would end behind the last segment. What a flush writes, what it leaves
//! where it fails, and what a stop leaves at each moment is said in `specs/Answers.antt`. A
//! `Flushed` is made by a flush alone. `laws` says that what is flushed is read again, behind what
//! was there, as the entries that were appended, and that nothing is written behind its end.
//!
//! Left to others: an entry's bytes (`wal_record`), how they are cut over pages (`wal_pages`), and
//! that the tip given is the one with which the area's archive ends (`wal_reader`).
#![tactic(auto)]

mod fault;
mod laws;
mod pieces;
mod prepared;
mod state;
mod tail;

pub use fault::AppendFault;
pub use laws::{
    added_entries_wait, appended_comes_next, failed_flushes_wait, flushed_entries_are_read,
    nothing_is_written_behind, stops_keep_entries,
};
pub use prepared::Prepared;
pub use state::{Flushed, WalState};
