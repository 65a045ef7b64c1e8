//! The tests of the view of chains, in a crate of their own, since a crate with tests is proved twice.
//!
//! A test shows what no clause says: that the calls succeed where memory is there, on directories
//! that `pgbackup` wrote, and their text as a reader sees it.
#![tactic(auto)]

#[cfg(test)]
mod view_tests;
