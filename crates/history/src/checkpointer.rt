//! What a store writes beside and round its commands: checkpoints, and page images where the page
//! was not changed since the last one.
//!
//! `needs_image` is the image rule: a page whose LSN is at most the latest redo point goes into
//! the WAL as a whole, so that replay from there on never needs what a disk has of it.
//! `change_kind` makes the kind of entry that the items of a change are written as, by the pages
//! before it, `creation_kind` and `truncation_kind` those of the other commands, and `redo_kind`,
//! `online_kind` and `first_kind` those of checkpoints. What a history is written as is a
//! definition of the crate (`specs/Written.antt`); these calls give just that.
//!
//! Left to others: which commands may be done and on which pages (`shared_store`), how an entry is
//! spelled and where it stands (`wal_record`, `wal_writer`), and when a checkpoint is made.

mod kinds;
mod laws;

pub use kinds::{
    change_kind, creation_kind, drop_kind, first_kind, needs_image, online_kind, redo_kind,
    truncation_kind,
};
pub use laws::changes_are_written_by_pages;
