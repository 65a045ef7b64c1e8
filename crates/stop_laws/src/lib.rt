//! What a stop leaves of a partition's area, by the history that the partition follows: the store
//! at its point, but for what entries from there on change whose WAL is flushed. A partition
//! doesn't know its history, so the contracts of its calls say this of any entries (`page_pool`,
//! `specs/Stops.antt`); the laws here give what those ask for.
//!
//! It has no code: `laws` has functions that do nothing, whose contracts are the laws of
//! `specs/Laws.antt`. Windows of a history are those of `specs/Window.antt`.
#![tactic(auto)]

mod laws;

pub use laws::{
    calls_keep_windows, clean_partitions_begin_windows, flushed_writes_may_be_done,
    histories_have_windows, left_stores_agree, windows_grow,
};
