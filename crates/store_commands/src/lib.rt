//! The commands over a store's WAL: `init`, `replay`, `follow` and `walsummary`.
//!
//! What each changes, why it comes to its answer, what it prints and how it ends stand in a file
//! each (`specs/Init.antt`, `Replay.antt`, `Follow.antt`, `Walsummary.antt`). Laws say that a
//! command comes to one answer, and that `follow` does as `replay` does.
//!
//! Left to others: the words (`command_line`), the work of `follow` (`follow_command`), what a
//! replay and a WAL are (`recovery`, `wal_archive`), which summaries are kept and how one is
//! printed (`summary_store`, `summary_text`), and the system's objects.
#![tactic(auto)]

mod follow_stream;
mod laws;
mod new_store;
mod new_wal;
mod range_summary;
mod replaying;

pub use follow_stream::{FollowFault, follow, follow_does_as_replay, follow_status, follow_text};
pub use laws::{
    follow_has_one_answer, init_has_one_answer, replay_has_one_answer, walsummary_has_one_answer,
};
pub use new_store::{InitFault, init, init_status, init_text};
pub use range_summary::{WalsummaryFault, walsummary, walsummary_status, walsummary_text};
pub use replaying::{ReplayFault, ReplayReport, made_line, replay, replay_status, replay_text};
