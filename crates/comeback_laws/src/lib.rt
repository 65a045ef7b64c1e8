//! What a restart leaves of a store that a stop interrupted: what the entries that survived make
//! from nothing.
//!
//! Of a history the first entries survive, with all that were flushed, and the data areas have what
//! stays of the store at the redo point of the last checkpoint among them, or are marked to be made
//! anew (`specs/Restorable.antt`). `restart` of `store_restart` makes of such areas, where it
//! answers Ok, a WAL of just the entries that survived and the files of just what these make from
//! an empty store, and tells how many forks and pages that has. The crate has laws alone
//! (`specs/Laws.antt`).
//!
//! Left to others: what `restart` does with its areas (`store_restart`), that neat files hold a
//! store (`neat_laws`), that replay over what disks cover is whole (`restart_laws`), and what a
//! stop leaves of them (`stop_laws`, `survivor_laws`).
#![tactic(auto)]

mod laws;

pub use laws::{comebacks_are_whole, counts_are_tallies, restarts_hold_whole};
