//! A member of a chain of backups.

use backup_label::Label;
use lsn_core::Text;
use manifest::Manifest;

/// A backup whose directory was found to be as its manifest lists it.
#[derive(Drop)]
pub struct Member {
    /// The name of the backup.
    pub name: Text,
    /// What its label tells.
    pub label: Label,
    /// What its manifest lists.
    pub manifest: Manifest,
}
