//! The command `drill`: a new store, a script that is drawn from a number, run on it by its
//! workers side by side, and the chain of its backups restored, in one call that reads no input.
//!
//! What it comes to stands in `specs/drill_command/Drill.antt`, step behind step: each is what the
//! command of that name does. What it prints stands in `Telling.antt`, and the sum by which
//! restored pages are compared in `Contents.antt`.
//!
//! Left to others: the script (`drill_script`), the parts (`store_commands`, `run_command`,
//! `chain_commands`), and the words (`command_line`).

mod clearing;
mod command;
mod contents;
mod parts;
mod report;
mod telling;

pub use clearing::Unclear;
pub use command::drill;
pub use report::{DrillFault, DrillReport};
pub use telling::{drill_status, drill_text};
