//! The tests of the crates from the words on bytes up to the readers of the WAL, through their
//! public calls alone. A crate with tests is proved twice, so they stand in a crate of their own;
//! those of the crates above stand in others, so that these are proved beside those crates. Further
//! ones, with those of areas, of entries and what they do, of the follower and of the writer of the
//! WAL, stand in
//! `further_tests/base_tests`, and run unproved.
//!
//! A test shows what no clause says: that a call succeeds where memory is there, and bytes and
//! texts that come from an independent implementation of the formats. Each expected value comes
//! from outside, never from the code that is tested.
#![tactic(auto)]

#[cfg(test)]
mod lsn_core_tests;
#[cfg(test)]
mod pg_page_tests;
#[cfg(test)]
mod sums_tests;
#[cfg(test)]
mod timeline_tests;
#[cfg(test)]
mod wal_pages_tests;
#[cfg(test)]
mod wal_reader_tests;
#[cfg(test)]
mod words_tests;
