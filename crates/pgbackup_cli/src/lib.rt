//! The whole program over whatever site, source, sink and clock it is handed: the function
//! `pgbackup` takes the words of the command line, does what they ask, prints and answers the exit
//! status.
//!
//! Its clause (`specs/Top.antt`) says of each command what it changes, why it comes to its answer,
//! what it prints and how it ends. The module `command_answers` has what the program comes to,
//! with its lines and its status, and `drill_command` the command `drill`.
//!
//! Left to others: the words (`command_line`), what each command does (`run_command`,
//! `store_commands`, `chain_commands`, `restart_command`), and the system's objects.
#![tactic(auto)]

pub mod command_answers;
pub mod drill_command;
mod laws;
mod top;

pub use command_base::Status;
pub use laws::runs_begin_alike;
pub use top::{answered, pgbackup};
