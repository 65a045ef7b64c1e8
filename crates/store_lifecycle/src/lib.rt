//! The two ends of an open store: it begins as what was found on its areas, and is closed.
//!
//! `begin` begins a store that was found, at a name that the caller's proof picks, with a pass for
//! each worker and the ledgers that they share (`specs/Starts.antt`). `close`, to which all passes
//! are given back, hands the areas back with all that the history makes, and says what the run left
//! (`specs/Close.antt`).
//!
//! Left to others: what is found on the areas (`store_areas`, `store_finding`), and all that a
//! store does between its two ends (`shared_store`).
#![tactic(auto)]

mod beginning;
mod closing;
mod enlisting;
mod settling;

pub use beginning::{Began, begin};
pub use closing::close;
