//! Files that stand for others.

use lsn_core::Text;

/// A file that a manifest lists, and the path of the file that stands for it.
#[derive(Debug, Drop)]
pub struct Target {
    /// The path of the file that is listed.
    pub from: Text,
    /// The path of the one that stands for it.
    pub to: Text,
}
