//! The file of a summary of the WAL: how it is written and read, and its name (profile).
//!
//! `specs/File.antt` has the grammar: the numbers of a file, which bytes are which summary's, and
//! what others are refused for. `encode_summary` gives exactly the bytes, `decode_summary` takes
//! exactly the bytes of the grammar and else answers the first fault, and `laws` say that what is
//! written is read as it was, and that a summary has one spelling. `summary_name` gives the name of
//! a range's file, and `is_name_of` tells it.
//!
//! Left to others: what a summary says of the WAL (`wal_summary`), and areas of files.
#![tactic(auto)]

mod fault;
mod forks;
mod laws;
mod name;
mod numbers;
mod reading;
mod summary;
mod writing;

pub use fault::SummaryFault;
pub use laws::{names_have_one_range, summaries_are_read_again};
pub use name::{is_name_of, range_in, summary_name};
pub use summary::decode_summary;
pub use writing::encode_summary;
