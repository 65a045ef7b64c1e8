//! Where publishing goes on.

use lsn_core::Lsn;
use wal_summary::Summary;

/// Where publishing goes on: a place from which on the WAL is read, where an entry starts or ends,
/// and the summaries that are kept of the area, where they are known.
#[derive(Drop)]
pub struct Known {
    /// A place (a byte of the WAL) where an entry starts or ends.
    pub place: Lsn,
    /// What is kept, in order of its ranges. Where there is none here, the area is read first.
    pub kept: Option<Vec<Summary>>,
}
