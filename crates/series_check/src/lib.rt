//! Whether several backups are a series of consecutive incremental ones, in whose place one may
//! stand in a chain (PostgreSQL manual, pg_combinebackup; one in the place of several: profile).
//!
//! `check_series` judges members by their labels and manifests (`specs/Series.antt`), in the order
//! in which `check_chain` judges those of a chain. `laws` say that a series has one answer.
//!
//! Left to others: whether the members' directories are as listed, and how a member is judged by
//! its predecessor (`chain_check`).
#![tactic(auto)]

mod laws;
mod series;

pub use laws::series_have_one_answer;
pub use series::check_series;
