//! Which entries of a WAL survive a stop, such as a power cut: those before the first end or damage
//! of its archive. Of entries that were written behind others and not synced, any bytes may be lost
//! or torn, in any order. The first of them survive all the same, whole and in order, and all that
//! were there before do, unless torn bytes pass the tests of an entry by chance.
//!
//! `specs/Survivors.antt` says what survivors are, and what a match by chance is; `specs/Laws.antt`
//! says the rest. The crate has laws alone.
//!
//! Left to others: the reading rules (`wal_archive`), what a stop leaves of an area (`vault`), and
//! that it leaves the entries that were flushed (`wal_writer`).
#![tactic(auto)]

mod laws;

pub use laws::{survivors_are_first, survivors_are_one};
