//! Whether files have the sums that are listed: each read whole, in pieces, four side by side.
//!
//! `lane_sums` reads the listed files and answers which of them are not as listed; the largest file
//! comes first, and stands alone where it is more than half of all others together
//! (`specs/LaneSums.antt`).
//!
//! Left to others: how a sum is computed (`sha_lanes`, `sha2`), what a manifest lists (`manifest`),
//! and which fault of a directory is told first (`chain_check`).
#![tactic(auto)]

mod lanes;
mod sums;

pub use lanes::lane_sums;
pub use sums::has_sum;
