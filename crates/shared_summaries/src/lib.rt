//! The area of the summaries of a WAL, shared by reference between the workers of an open store.
//!
//! `Summaries` keeps the area under one lock, with a note of the history that its summaries were
//! made of, the place from which on the WAL is read for the next ones, what is kept, and the book
//! of the area's faults. `advance` and `advance_covering` publish there what the worker's pass
//! sees, which first learns what the lock knows (`specs/Shelf.antt`), and then remove what is old.
//! Whoever holds the lock finds an area that is true for the history behind what the run found, if
//! it was honest for that when the run began, and whose kept summaries grew by neighbours since,
//! but for old ones (`specs/Grown.antt`): so what a worker is answered up to a redo point of its
//! own is the summary up to there, and behind all workers the area is honest (`specs/Laws.antt`).
//!
//! The lock is taken before the store's locks: the WAL is read under it.
//!
//! What is published there and how, the module `summary_publish` says, which knows no lock.
//!
//! Left to others: what a summary says (`wal_summary`), which are kept (`summary_store`), and the
//! store (`shared_store`).
#![tactic(auto)]

mod kept;
mod laws;
mod naming;
mod summaries;
pub mod summary_publish;

pub use laws::{answers_sum_up, kept_summaries_grow};
pub use naming::OfRetention;
pub use summaries::Summaries;
