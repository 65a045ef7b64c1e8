//! The tests of scripts: what bytes say to workers, and where they are refused.
//!
//! A test shows what no clause says: that a call succeeds where memory is there, and what rows of
//! the format say. Each expected value comes from outside, never from the code that is tested.
#![tactic(auto)]

#[cfg(test)]
mod drill_tests;
#[cfg(test)]
mod script_tests;
