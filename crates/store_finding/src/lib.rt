//! A store is found on its areas: `find` reads its WAL, clears the data areas and replays the WAL
//! into them, so that a stop at any moment leaves them as they were, marked or whole.
//!
//! What was found and why nothing was is said in `store_areas`; `specs/Filling.antt` says what the
//! steps of `find` do.
//!
//! Left to others: replay (`recovery`), how the data areas are rebuilt (`data_areas`), and
//! beginning a store that was found (`shared_store`).
#![tactic(auto)]

mod boxing;
mod finding;
mod found;

pub use found::find;
