//! The steps of the machine.

use history::Op;
use lsn_core::{BlockId, ForkId};

/// A step. The first number of a step of a worker is the worker's; a partition is named by its
/// number.
#[derive(Debug, Drop)]
pub enum Step {
    /// A command is judged, and done in the frames of its partition, with its entry in the WAL.
    Insert(u32, Op),
    /// What is first to be written of a partition is written to its disk.
    WritePage(u32),
    /// All that is dirty or pending in a partition is written to its disk.
    Clean(u32),
    /// The start of a checkpoint is written to the WAL. Its place is the worker's redo point.
    Redo(u32),
    /// The end of that checkpoint is written to the WAL; a backup that was asked for begins.
    Begin(u32, Asked),
    /// A summary is published of the range of the WAL from where the last one ends, or from the
    /// first entry on, to the next redo point.
    Publish,
    /// The forks on a partition's disk are listed for the worker's backup, with their lengths.
    ListForks(u32, u32),
    /// A block is copied from its partition's disk into the worker's backup.
    CopyBlock(u32, BlockId),
    /// The end of the worker's backup is written to the WAL.
    End(u32),
}

/// What is asked for with the end of a checkpoint.
#[derive(Clone, Copy, Debug, PartialEq, Eq)]
pub enum Asked {
    /// The checkpoint alone.
    Nothing,
    /// A full backup, from the checkpoint's redo point on.
    Full,
    /// An incremental backup from there on, over the finished backup of this number, counted from
    /// 0.
    Incr(u32),
}

/// A work on a partition's disk, to be done before its dirty pages are written.
#[derive(Clone, Copy, Debug, PartialEq, Eq)]
pub enum Work {
    /// To make a fork, with no block; one that is there stays as it is.
    Make(ForkId),
    /// To cut a fork to so many blocks.
    Cut(ForkId, u32),
    /// To remove a fork.
    Remove(ForkId),
}
