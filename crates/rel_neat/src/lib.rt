//! Segment files that a stop left, made neat.
//!
//! A stop, such as a power cut, leaves the segment files of a store's forks torn: some end within a
//! page, some are empty, and some stand behind one that is missing or short. `neaten` cuts each to
//! its whole pages and removes those that their forks don't have, so that all segment files of an
//! area are neat (`specs/Neat.antt`). It writes no page: what stays of the area's pages, whatever
//! that is, stays after each of its steps, also where a stop comes meanwhile or a call fails. It
//! changes no other files, and its faults are those of the area and want of memory.
//!
//! Left to others: which pages stay (`stop_laws`), and that neat files hold a store.
#![tactic(auto)]

mod neat;

pub use neat::neaten;
