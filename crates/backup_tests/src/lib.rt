//! The tests of what a backup leaves, through the public calls of its crates alone. A crate with tests
//! is proved twice, so they stand in a crate of their own, apart from those of the base, of the store
//! and of the program, which are proved beside it. Further ones, with those of summaries of the WAL,
//! stand in `further_tests/backup_tests`, and run unproved.
//!
//! A test shows what no clause says: that a call succeeds where memory is there, and texts that
//! come from an independent implementation of the formats or from the formats alone.
#![tactic(auto)]

#[cfg(test)]
mod dir_lines;
#[cfg(test)]
mod head_tests;
#[cfg(test)]
mod lane_tests;
#[cfg(test)]
mod manifest_tests;
