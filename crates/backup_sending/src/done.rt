//! What a finished backup answers.

use lsn_core::Lsn;

/// A finished backup.
#[derive(Clone, Copy, Debug, PartialEq, Eq)]
pub struct Done {
    /// Its redo point: where replay of the backup starts.
    pub start: Lsn,
    /// Where the entry ends that ended it: replay reaches at least this far.
    pub end: Lsn,
    /// How many files its manifest lists.
    pub files: u64,
}
