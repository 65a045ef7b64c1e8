//! Segment files that were made neat hold a store: whole pages, none missing before others. So what
//! is redone over data areas that a stop left is redone over a store.
//!
//! What it takes is that no fork is longer than a fork may be, and that no area has a fork of
//! another partition (`specs/Room.antt`); both stay so while the files are made neat. The crate has
//! laws alone (`specs/Laws.antt`).
//!
//! Left to others: what is neat, and what stays while files are made so (`rel_neat`), and when
//! files hold a store (`rel_files`).
#![tactic(auto)]

mod laws;

pub use laws::{neat_areas_hold_stores, neat_files_hold_stores};
