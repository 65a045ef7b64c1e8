//! The ledgers of an open store: what its locks count, and what the shares outside them say of it.
//!
//! Each ledger has a book under a lock and shares elsewhere. All of them are named by one type
//! parameter. Their names and the numbers of their parts are picked once in a program, where a
//! store is begun (`Blanks`).
#![tactic(auto)]

mod blanks;
mod entries;
mod naming;

pub use blanks::Blanks;
pub use entries::{EntryBooks, EntryShare, EntryShares};
pub use naming::{AreaFaults, Entries, Made, OfLedgers};
