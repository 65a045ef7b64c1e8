//! The tests of what brings a store back after a stop: which entries of a WAL survived, the WAL cut
//! behind them, and segment files made neat.
//!
//! A test shows what no clause says: that a call succeeds where memory is there, on bytes that come
//! from an independent implementation of the formats. Each expected value comes from outside, never
//! from the code that is tested.
#![tactic(auto)]

#[cfg(test)]
mod restart_tests;
