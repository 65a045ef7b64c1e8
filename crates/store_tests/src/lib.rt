//! The tests of an open store and of its machine of steps, through their public calls alone. A
//! crate with tests is proved twice, so they stand in a crate of their own, apart from those of the
//! base and of the program, which are proved beside it. Further ones, with those of its partitions
//! and of its data areas, stand in `further_tests/store_tests`, and run unproved.
//!
//! A test shows what no clause says: that a call succeeds where memory is there, and bytes and
//! places that come from an independent implementation of the formats or from the layout alone.
#![tactic(auto)]

#[cfg(test)]
mod commands;
#[cfg(test)]
mod flushed;
#[cfg(test)]
mod machine_tests;
#[cfg(test)]
mod passes_tests;
