//! The store's core machine (`store_core`) with a stop, such as a power cut, at any moment of its
//! steps.
//!
//! To the machine come the area of each partition, by what happened to it so far, and the place
//! up to which the WAL is flushed (`specs/Machine.antt`). Before each step the WAL may be flushed
//! further. Before a write or a clean it must be, up to the end of the last entry that touched
//! the page that is written or entered the work that is done; a command or a mark, which appends
//! an entry, flushes nothing. The events of a write are those that calls on a store in segment
//! files add: the machine's disk is the store that the files hold. A clean writes until nothing
//! is dirty or pending, and syncs.
//!
//! Then, over every list of such steps from a new store on, a stop at any moment leaves of each
//! partition's area what the store had at the partition's point, unless an entry from there on
//! whose WAL is flushed changes it (`specs/Laws.antt`). What isn't flushed is dirty or pending,
//! so entries that are lost in a stop changed nothing on a disk that was cleaned. So, whichever
//! of the entries survive it with all that are flushed, each area has what the store had at the
//! redo point that a checkpoint among them names, unless one of them from there on changes it
//! (`specs/Survivors.antt`): replay of these makes it good.
//!
//! The crate has laws alone. Left to others: what the machine's steps do, and that it keeps its
//! facts (`store_core`), what an area is as a machine of steps (`stop_machine`), which events
//! keep what stays (`stop_areas`), which entries of the WAL survive (`survivor_laws`), and what a
//! restart makes of it all (`comeback_laws`).
#![tactic(auto)]

mod laws;

pub use laws::{areas_stay_safe, survivors_are_left};
