//! What the entries of a WAL mean: the acts that they are, and what an act does to a store.
//!
//! The meaning stands in `specs/`: an entry of a history (`Entry.antt`), one applied to a store
//! (`Apply.antt`), the store that a history or a whole WAL makes from nothing (`Whole.antt`),
//! replay over newer pages (`Redo.antt`), and the records that a history is written as
//! (`Written.antt`), where a patch is an image or a delta. `apply` does to a `PageMap`, a store in
//! memory, what a record says, or leaves it as it was; a `PageMap` is also `Pages`, for code that
//! works over any store. `Op` is a command, and gives the kind of entry that it is written as.
//! Laws of their own (`Laws.antt`) say that the records say what the history does, and that replay
//! may pass over deltas of newer pages.
//!
//! Its modules: `partitions`, the four parts of a store and of a history; `checkpointer`, the
//! kinds of entries that a store's commands and checkpoints are written as; `fuzzy_copies`, what
//! makes a copy sound that was taken while pages changed.
//!
//! Left to others: how a record is spelled (`wal_record`), a page's header, hole and fragments
//! (`pg_page`), a store's files (`lsn_core`), and when a command is refused (`shared_store`).
#![tactic(auto)]

mod applying;
pub mod checkpointer;
pub mod fuzzy_copies;
mod laws;
mod op;
mod page_map;
mod pages;
pub mod partitions;
mod undo;

pub use applying::{ApplyFault, apply, cuts_main, is_same_block, is_same_fork};
pub use laws::{
    commands_are_said, entries_may_be_applied, histories_are_written_on, tests_change_nothing,
    written_is_applied,
};
pub use op::{Edit, Item, Items, Op, init_fork, main_fork};
pub use page_map::PageMap;
