//! The commands over backups, their chains and their series: `verify`, `combine`, `merge-incr` and
//! `restore`.
//!
//! What each changes, why it comes to its answer, what it prints and how it ends stand in a file
//! each (`specs/Verify.antt`, `Combine.antt`, `Merge.antt`, `Restore.antt`), what `combine` and
//! `merge-incr` share in `specs/Joined.antt`, and the members of a chain or of a series in
//! `specs/Chain.antt`. Laws say that a command comes to one answer.
//!
//! Left to others: the words (`command_line`), what a backup's directory, a chain, a series and a
//! restore are (`chain_check`, `series_check`, `combine`, `incr_merge`, `backup_restore`), and the
//! system's objects.
#![tactic(auto)]

mod chain;
mod combining;
mod directory;
mod laws;
mod lending;
mod link;
mod restoring;
mod verifying;

pub use chain::MembersFault;
pub use combining::{
    CombineFault, CombineReport, combine, combine_status, combine_text, merge, merge_text,
};
pub use laws::{
    combine_has_one_answer, merge_has_one_answer, restore_has_one_answer, verify_has_one_answer,
};
pub use restoring::{RestoreFault, restore, restore_status, restore_text};
pub use verifying::{VerifyFault, VerifyReport, verify, verify_status, verify_text};
