//! The WAL of an open store, with the history that it tells.
//!
//! `Journal` is the value under the lock of the WAL: the WAL that is written (`wal_writer`), the
//! pen of the store's timeline (`timeline`), whose list is the history itself and exists in proofs
//! alone, and the number of the store's pages. It promises that the history is lawful
//! (`specs/Lawful.antt`), that the WAL ends where the history does, and, where areas tell their
//! files, that the archive is the records of the first entries, while those of the others wait in
//! memory (`specs/Journal.antt`), also after calls that failed. `laws` says what a lawful history
//! gives to those who read it, and how it goes on.
//!
//! Left to others: that an entry's act may come next, as it is written (the partitions' values and
//! `checkpointer`), the lock, when to flush, and what a stop leaves.
#![tactic(auto)]

mod entry;
mod found;
mod journal;
mod know;
mod laws;
mod marks;
mod naming;

pub use entry::HistoryEntry;
pub use found::append_found;
pub use journal::Journal;
pub use know::know_pages;
pub use laws::{
    flushed_entries_are_kept, found_is_told, histories_end_at_an_entry, kept_is_wal,
    lawful_goes_on, lawful_is_orderly, lawful_is_tidy, own_acts_may_come_next, parts_tell_kinds,
    tips_count_entries,
};
pub use naming::OfStore;
