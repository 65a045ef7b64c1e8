//! Summaries of the WAL that are kept in an area of files, one file for each.
//!
//! `Kept::open` takes the files of an area in byte order of their names and keeps the summaries of
//! those that are a summary's file under the name of its range and that start at or past the end of
//! the last one kept (`specs/Kept.antt`); so kept ranges never overlap. `Kept::covering` merges
//! those that overlap a range, or tells the first gap. `expire` removes those that are old, but
//! never the one of the greatest end (`specs/Expiry.antt`). An area is honest for a history where
//! each such file is the summary of the history's entries in its range, from a redo point to
//! another (`specs/Honest.antt`); what is kept of it, and what covers a range, then is so too.
//!
//! Left to others: what a summary says (`wal_summary`), and its file (`summary_file`).
#![tactic(auto)]

mod expiry;
mod kept;
mod laws;
mod opening;

pub use expiry::{age_limit, expire};
pub use kept::{Kept, SumsFault};
pub use laws::honest_files_are_kept;
pub use opening::{end_behind, kept_in};
