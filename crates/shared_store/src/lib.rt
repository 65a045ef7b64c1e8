//! An open store, shared by reference between workers: its WAL with the history that it tells under
//! one lock, and its pages in four partitions, each under a lock of its own.
//!
//! Commands are judged one at a time (`specs/Refusals.antt` of `store_locks`), by the pages of the
//! partition that a command concerns; each accepted one is appended to the WAL and the history, and
//! changes the pages in memory; pages reach the data areas later, behind the WAL. Workers hold a
//! `Pass` each, which knows what its worker has seen of the history and how many faults of each
//! area it was answered. What the calls of `Store` answer is said over what the pass had seen and
//! has seen then (`specs/Shared.antt`). `records` gives the WAL's records piece by piece, while the
//! store is open.
//!
//! A partition's lock is taken before the WAL's, and nobody holds two partitions' locks; under the
//! WAL's lock no area is written or read but the WAL's.
//!
//! Left to others: what lies under the locks, and what is done with it there (`store_locks`), how
//! commands are inserted (`store_insertion`), and how a store begins and is closed
//! (`store_lifecycle`).
#![tactic(auto)]

mod checkpoint;
mod laws;
mod locking;
mod pass;
mod records;
mod shares;
mod store;

pub use laws::{copies_start_at_redo_points, passes_count_their_entries, records_go_on};
pub use pass::{FaultShares, Pass};
pub use shares::{Shares, Undealt};
pub use store::Store;
