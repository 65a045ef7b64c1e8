//! The four data areas of a store, made anew from its WAL.
//!
//! Data areas are rebuilt in three steps. `clear` removes whatever they hold. `StoreForks` then
//! shows the cleared areas as the pages of one store, the empty one, into which a WAL is replayed.
//! `settle` makes durable what that wrote, and opens the four partitions: afterwards each area has
//! just the files of its partition's pages, durably (`specs/Rebuilt.antt`).
//!
//! Areas that a stop left half made are known by the file `rebuilding` of the first one. `clear`
//! makes it durable before anything else of that area changes; each stop leaves it while other
//! files change (`rebuilding_stays`); and `settle` removes it once a stop leaves the areas' other
//! files as they are to be. A fault leaves it there, unless nothing else was touched, or the areas
//! have just their files, durably. What a stop leaves is said of areas that tell their files and
//! their past (`specs/Marking.antt`, `specs/Phases.antt`), and of the four together at each moment
//! by the parts in which a call goes (`specs/Moments.antt`).
//!
//! Left to others: replay itself, whether a store has to be rebuilt at all, and what its partitions
//! do from then on (`page_pool`).
#![tactic(auto)]

mod areas;
mod clearing;
mod fault;
mod marking;
mod settling;
mod store_forks;

pub use areas::{DataAreas, RebuildFault};
pub use clearing::clear;
pub use marking::{clear_area, clear_marked, mark_rebuilding, rebuilding_stays, unmark_rebuilding};
pub use settling::{Partitions, settle};
pub use store_forks::StoreForks;
