//! What the program comes to: one variant a command, the lines that it prints for that, and its
//! exit status (`specs/command_answers/Telling.antt`).
//!
//! Left to others: when each answer comes (`run_command`, `store_commands`, `chain_commands`,
//! `restart_command`), and the notes on standard error (`operator_notes`).

mod answer;

pub use answer::{Answer, exit_status, text_of};
