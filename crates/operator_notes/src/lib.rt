//! What an operator is told on standard error: of a refused command, what was found and where, and
//! what to do next; of words that aren't taken, how the program is used.
//!
//! `note_of` is a function of the words and of what they came to, and reads nothing. Its texts are
//! the program's own (profile), are tried by tables of cases, and are in no contract. What is
//! printed on standard output stands in `pgbackup_cli` and is the same with them and without.
//!
//! Left to others: what the system said of a device that failed (`vault_os`), and printing.
#![tactic(auto)]

mod areas;
mod directory;
mod lines;
mod note;
mod script;
mod sums;
mod usage;
mod wal;

pub use note::note_of;
