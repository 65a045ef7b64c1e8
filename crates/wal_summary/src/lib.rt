//! Summaries of the WAL: which blocks of which forks the entries of a range touched, and to which
//! length a fork was cut (PostgreSQL manual, pg_walsummary; common/blkreftable.h).
//!
//! What a summary says is a block reference table of `fuzzy_copies`, whose law of incremental
//! copies speaks of `summary_of` a range; `specs/Summary.antt` says which forks are the summary of
//! a table. `MarkMap` gathers what records and summaries say, in one pass, and throws away the
//! marks that a later limit takes off. `summarise` and `merge` are one walk over it, and so is
//! `covering`, over the kept summaries that overlap a range (`specs/Kept.antt`). Laws of their own
//! say that a range has one summary, and that merging gives the summary of the whole.
//!
//! Left to others: what an entry means (`history`), and a summary's file.
#![tactic(auto)]

mod fork_marks;
mod kept;
mod laws;
mod making;
mod mark_map;
mod summary;

pub use kept::{CoverFault, covering};
pub use laws::{
    honest_summaries_stay, logs_are_summed_up, merges_sum_up_both, neighbours_are_merged,
    summaries_are_one,
};
pub use making::{merge, summarise};
pub use mark_map::MarkMap;
pub use summary::{BlockNumbers, ForkSummaries, ForkSummary, Summary};
