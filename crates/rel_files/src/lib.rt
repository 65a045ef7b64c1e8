//! A store of pages as PostgreSQL keeps it: segment files of an area, a fork in files of so many
//! blocks (PostgreSQL manual, Database File Layout).
//!
//! `Forks` is the trait `Pages` over an area. `specs/Forks.antt` says what files hold of a store:
//! each page where its block stands, and behind the whole pages at most one short page, which a
//! write that failed left and which no call counts. Beside what the trait says, each call says what
//! it leaves of every store that was held before, where it fails too. Names that aren't those of
//! segment files stay. How many pages a fork has is looked up once and then known.
//!
//! Left to others: what a store is, which files it has and how they are named (`lsn_core`), the
//! area and its failures (`vault`), what stands in a page, and making files durable.
#![tactic(auto)]

mod cutting;
mod finding;
mod forks;
mod known;
mod laws;
mod listing;
mod one_file;
mod putting;
mod raw_calls;
mod relseg;

pub use forks::Forks;
pub use laws::{empty_areas_hold_nothing, files_are_exact};
