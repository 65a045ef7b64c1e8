//! The backups below a folder, and the chains that they make, by what their labels and manifests
//! tell (PostgreSQL manual, pg_combinebackup).
//!
//! `specs/Shown.antt` says what a folder shows by its manifest and its label: a backup, or its
//! first fault. `specs/Listing.antt` says what is listed of an area as a function of what its
//! folders show,
//! `specs/Chains.antt` on which backup another one stands, which chain it ends, and which chain is
//! the newest for a place; `laws` say of these what they are, however they are found, and that by
//! their labels `restore` takes them.
//!
//! Left to others: the grammars of labels and manifests (`backup_label`, `manifest`), whether the
//! files of a backup are as listed, whether the incremental ones fit those of the prior
//! (`chain_check`), and how a listing is shown (`chain_view`).
#![tactic(auto)]

mod backup;
mod chains;
mod laws;
mod listing;
mod reading;
mod shown;
mod word;

pub use backup::{Backup, Kind};
pub use chains::{MOST_MEMBERS, chain_of, members_for, prior_of};
pub use laws::{chains_are_linked, newest_chains_are_told, shown_chains_are_taken};
pub use listing::{Damaged, Listing, listing_of};
pub use reading::{Folder, folders_of};
pub use shown::FolderFault;
pub use word::{Word, lsn_word};
