//! The areas of a store, and a store that was found on them.
//!
//! `StoreAreas` are the area of its WAL and the data areas of its four partitions. `Found` is a
//! store whose WAL was read and whose data areas were rebuilt from it, and `BeginFault` says why
//! none was begun (`specs/Begin.antt`); `specs/Opened.antt` what an open store shows, and
//! `specs/Moments.antt` what a stop leaves of the data areas while they are rebuilt.
//!
//! Left to others: finding a store (`store_finding`), and beginning and keeping it
//! (`shared_store`).
#![tactic(auto)]

mod areas;
mod found;

pub use areas::StoreAreas;
pub use found::{BeginFault, Found};
