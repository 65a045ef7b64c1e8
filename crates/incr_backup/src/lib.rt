//! Incremental backups of an open store over a prior one (PostgreSQL manual, pg_basebackup
//! `--incremental`).
//!
//! `take_incr` reads the prior backup's manifest (`specs/Prior.antt` says how it is judged), runs a
//! checkpoint, sums up the WAL since the prior backup's start, sends what changed since then, and
//! writes label and manifest. `specs/Incr.antt` says what is answered, and what stands after each
//! refusal.
//!
//! Left to others: the summaries of the WAL (`shared_summaries`), and the files and what every
//! backup has (`backup_sending`).
#![tactic(auto)]

mod incr;
mod prior;

pub use incr::take_incr;
