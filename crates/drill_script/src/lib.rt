//! The script that `drill` runs: four writers, each on a fork of its own, a worker that flushes,
//! and one that takes a chain of three backups meanwhile.
//!
//! What the writers do is drawn from a number (`specs/Draw.antt`, `specs/Writer.antt`); the script
//! is an equation of that number (`specs/Drill.antt`). Its tasks are made as reading its lines
//! would make them, each command with the number of its line, and no text is made. Laws say that it
//! may be run as a script that was read.
//!
//! Left to others: the grammar of scripts (`scripts`), and the run (`run_command`).
#![tactic(auto)]

mod commands;
mod laws;
mod tasks;
mod writer;

pub use laws::drilled_is_a_script;
pub use tasks::make_script;
pub use writer::{Step, Writer};
