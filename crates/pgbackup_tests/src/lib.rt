//! The tests of the program, through public calls alone: of runs with one worker and with several,
//! of full backups, of chains and of drills, and of what it tells on standard error. A crate with tests is
//! proved twice, so they stand in a crate of their own; those of the crates below stand in
//! `base_tests`, `script_tests`, `restart_tests`, `store_tests` and `backup_tests`. Further ones,
//! of all commands, of devices that fail, and of what happens while a backup is taken, stand in
//! `further_tests/pgbackup_tests`, and run unproved.
//!
//! A test shows what no clause says: that a call succeeds where memory is there, and bytes and
//! texts that come from an independent implementation of the formats. Each expected value comes
//! from outside, never from the code that is tested. What the tests share are calls of the program
//! over a site in memory (`calls`).
#![tactic(auto)]

#[cfg(test)]
mod calls;
#[cfg(test)]
mod chain_tests;
#[cfg(test)]
mod change_tests;
#[cfg(test)]
mod changes;
#[cfg(test)]
mod checkpoint_tests;
#[cfg(test)]
mod combine_tests;
#[cfg(test)]
mod drill_tests;
#[cfg(test)]
mod full_tests;
#[cfg(test)]
mod kinds_tests;
#[cfg(test)]
mod notes_tests;
#[cfg(test)]
mod outputs;
#[cfg(test)]
mod restore_tests;
#[cfg(test)]
mod verify_tests;
#[cfg(test)]
mod words_tests;
#[cfg(test)]
mod workers_tests;
