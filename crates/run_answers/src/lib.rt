//! What `run` comes to: the answers to the lines of its script, what is printed of them, and the
//! status.
//!
//! The lines stand in `specs/Report.antt` and `specs/Telling.antt`, by what an answer stops its
//! worker in `specs/Stopping.antt`.
//!
//! Left to others: the grammar of scripts (`scripts`), when each answer is given (`crew`), what a
//! run does (`run_command`), and the texts and statuses of faults (`command_base`).
#![tactic(auto)]

mod answer;
mod begin;
mod outcome;
mod report;
mod telling;
mod told;

pub use answer::{Answer, Answers, Stop};
pub use outcome::{RunFault, RunReport};
pub use telling::{last_text, run_status, run_text};
pub use told::{Told, ToldTasks};
