//! The area of one partition as a machine of steps, with a stop, such as a power cut, at any moment
//! of each: entries are appended to the history, more of its WAL is flushed, pages are written, and
//! the area is synced, behind which its point is raised.
//!
//! A step may be taken where what is written changes nothing that stays (`specs/Area.antt`). Then,
//! over every list of steps, a stop at any moment leaves what stays of the store at the point, but
//! for what entries from there on change whose WAL is flushed (`specs/Laws.antt`). The crate has
//! laws alone.
//!
//! Left to others: which events keep what stays (`stop_areas`), and that a partition's writes are
//! such ones (`page_pool`, `stop_laws`).
#![tactic(auto)]

mod laws;

pub use laws::areas_are_safe;
