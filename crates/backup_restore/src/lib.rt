//! A store restored from a chain of backups: what the chain holds, copied, and the WAL from the
//! newest one's start on, redone over it.
//!
//! The directories of a chain stand in areas that are lent, each at its place; of each segment file
//! that they are combined to (`chain_files`) the pages are copied straight into the output, with no
//! combined copy between. `specs/Restored.antt` says what `restore` leaves in an output and why it
//! is refused. Laws: a reading from an entry's start on is the rest of the WAL
//! (`specs/Onwards.antt`), a restore of a sound copy leaves what a replay of the whole WAL makes
//! (`specs/Completed.antt`), segment files hold one store (`specs/Directories.antt`), and restores
//! of the same files answer the same (`specs/Laws.antt`).
//!
//! Left to others: whether a directory is as its manifest lists it and follows the one before it
//! (`chain_check`), where the pages of a combined file stand (`chain_files`), how the WAL is read
//! and an entry redone (`recovery`), and where pages stand in files (`rel_files`).
#![tactic(auto)]

mod copying;
mod fault;
mod laws;
mod restoring;

pub use fault::RestoreFault;
pub use laws::{
    directories_hold_one_store, reading_goes_on_from_entries, restores_end_alike,
    restores_have_one_answer, sound_copies_are_completed, stores_are_held_by_their_files,
};
pub use restoring::restore;
