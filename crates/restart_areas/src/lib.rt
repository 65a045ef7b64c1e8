//! The data areas of a store as a restart goes over them.
//!
//! `StorePages` shows four data areas as the pages of one store, whatever store their segment files
//! hold. `clear_all` removes the segment files of all forks, `neaten_all` makes those that a stop
//! left neat, `sync_all` makes all durable, and `count_all` counts forks and pages, each of the
//! four areas. Files of other names stay. Each fault has its cause: the count of the area that it
//! names rose, or memory ran out (`specs/`). A value of `StorePages` has a known size where its
//! areas do, as those on the heap.
//!
//! Left to others: which entries are replayed into the pages, and what a stop leaves of the areas.
#![tactic(auto)]

mod calls;
mod clearing;
mod counting;
mod store_pages;

pub use calls::{clear_all, fault_of_data, neaten_all, sync_all};
pub use clearing::clear_forks;
pub use counting::count_all;
pub use store_pages::StorePages;
