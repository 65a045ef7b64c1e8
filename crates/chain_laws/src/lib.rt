//! Laws of chains of backups, on the directories' files alone.
//!
//! A chain of backups is combined to the segment files of a store (`chain_files`). It is sound
//! where that store is a copy that replay completes (`specs/Chain.antt`). These laws say that it
//! stays so with each incremental backup that is taken on it (`specs/Increment.antt`), as the
//! history goes on, and when a combined directory stands in its place; and that it begins with a
//! full backup.
//!
//! Left to others: the law of copies block by block (`fuzzy_copies`), and what takes a backup
//! (`backup_sending`, `incr_backup`).
#![tactic(auto)]

mod laws;

pub use laws::{
    chains_are_sound_alike, full_backups_are_sound_chains, increments_extend_sound_chains,
    sound_chains_stay_sound,
};
