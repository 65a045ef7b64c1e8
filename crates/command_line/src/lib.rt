//! The words of the command line, as the command that they ask for.
//!
//! `command_of` reads the words by a command of `clap` with a subcommand for each command. It has
//! none exactly where `specs/Words.antt` asks nothing: a word isn't text, the command, which
//! `specs/App.antt` writes out, doesn't take the words, or a value is none of its option's or of
//! its word's (`specs/Options.antt`).
//!
//! Left to others: which characters a name has (`scripts`), how numbers and LSNs are written
//! (`text_numbers`, `lsn_core`), and what a command does (`run_command`, `store_commands`,
//! `chain_commands`).
#![tactic(auto)]

mod app;
mod found;
mod members;
mod options;
mod words;

pub use members::MemberNames;
pub use options::{FollowSizes, InitOptions, RunOptions};
pub use words::{Command, command_of};
