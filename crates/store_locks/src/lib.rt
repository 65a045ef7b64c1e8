//! What lies under the locks of an open store, and what is done with it there.
//!
//! Under the WAL's lock lies a `Desk`: the WAL with the history that it tells, and the books that
//! belong to it; under the lock of each partition a `HeldPart`, which follows a beginning of the
//! history, also after calls that failed (`specs/Locked.antt`). What a worker has seen of the
//! history, and how many faults of the WAL's area it was answered, is its `Knowing`
//! (`Standing` of `specs/Locked.antt`). The WAL is flushed up to a place or past what a partition
//! hasn't written, marks are appended, and records are read from a place on (`specs/Records.antt`).
//! Why a command is refused behind a history stands in `specs/Refusals.antt`.
//!
//! Left to others: the locks and the order in which they are taken (`shared_store`), how a store
//! begins and is closed (`store_lifecycle`, to which the values under the locks and their fields
//! are public), how commands are inserted (`store_insertion`), the history and the WAL that tells
//! it (`journal`), a partition's pages and its area (`page_pool`), and the ledgers' kinds
//! (`store_ledgers`).
#![tactic(auto)]

mod desk;
mod fault;
mod flush;
mod held;
mod marks;
mod naming;
mod reading;
mod receipt;
mod standing;

pub use desk::{Desk, count};
pub use fault::{fault_of, mark_fault};
pub use flush::{flush_past, flush_whole};
pub use held::HeldPart;
pub use naming::OfCrew;
pub use receipt::{Receipt, Redo};
pub use standing::Knowing;
