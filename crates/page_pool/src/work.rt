//! What is to be done to a partition's disk before its dirty pages are written.

use lsn_core::{ForkId, Lsn};

/// A work on a partition's disk.
#[derive(Clone, Copy, Debug, PartialEq, Eq)]
pub enum Work {
    /// To make a fork, with no block; one that is there stays as it is.
    Make(ForkId),
    /// To cut a fork to so many blocks.
    Cut(ForkId, u32),
    /// To remove a fork.
    Remove(ForkId),
}

/// A work that is still to be done.
#[derive(Clone, Copy, Debug, PartialEq, Eq)]
pub struct Pending {
    /// The work.
    pub work: Work,
    /// The end of the entry that entered the work: WAL is flushed up to there before it is done.
    pub end: Lsn,
}
