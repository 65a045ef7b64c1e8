//! Commands inserted into an open store that workers share.
//!
//! `insert_command` judges a command one at a time by its form and by the pages of the partition
//! that it concerns (`specs/Refusals.antt` of `store_locks`), makes room for its pages, appends
//! its entry to the WAL and the history, and changes the pages in memory. The partition's lock is
//! taken first, then the WAL's, which isn't held while pages are written.
//!
//! Left to others: the other calls of an open store, and what lies under its locks
//! (`shared_store`), and how a partition judges and changes its pages (`page_pool`).
#![tactic(auto)]

mod desk;
mod fault;
mod form;
mod insert;
mod locking;
mod room;
mod store;

pub use store::insert_command;
