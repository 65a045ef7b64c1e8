//! What is printed of a summary of the WAL: of each fork a line with its limit, where it has one,
//! and a line for each run of consecutive blocks (the form of pg_walsummary's output; that runs
//! stand in one line is its default).
//!
//! `summary_text` gives exactly the text of `specs/Text.antt`. Runs are those of `specs/Runs.antt`;
//! a law says that they have the blocks of the list and no other, and that no two of them touch.
//!
//! Left to others: what a summary says (`wal_summary`), and which one is printed.
#![tactic(auto)]

mod laws;
mod runs;
mod text;

pub use laws::runs_are_the_blocks;
pub use runs::{BlockRun, block_runs};
pub use text::summary_text;
