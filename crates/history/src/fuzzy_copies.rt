//! Copies of a store that were taken while its pages changed.
//!
//! A copy need not be the store at any one moment. In `specs/fuzzy_copies/`, `Sound.antt` says
//! what makes one sound, so that replay from its start on completes it (`Recovered.antt`).
//! `Taken.antt` says how a copy is taken, and `Increment.antt` how one is over an earlier one, by
//! a summary of what changed since (`Summary.antt`). What an entry does to a block stands in
//! `Touches.antt` and `Effects.antt`, what a disk behind its store has in `Covers.antt`, a
//! history's records in `Logged.antt`. Laws of their own (`Laws.antt`, `CoverLaws.antt`) speak of
//! plain histories and know no lock, file or thread: taken copies, full and incremental, are sound
//! and stay so, and a sound copy with replay gives what the whole WAL gives.
//!
//! Left to others: who takes a copy (`backup_sending`, `incr_backup`).

mod disks;
mod increments;
mod laws;

pub use disks::{covering_disks_answer, covers_are_kept, disks_cover};
pub use increments::{
    increments_are_sound, logs_are_summed_alike, summaries_meet, summaries_tell_blocks,
};
pub use laws::{
    copies_are_restored, effects_tell_stores, logs_keep_copies_sound, replay_completes_copies,
    sound_copies_stay_sound, taken_copies_are_sound, untouched_blocks_stay,
};
