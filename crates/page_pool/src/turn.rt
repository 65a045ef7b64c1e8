//! What was written of a partition.

ghost use Rattle.std.specs.Prelude.{◌≡◌};

use lsn_core::{BlockId, ForkId, Lsn};

/// One thing that was written.
#[derive(Clone, Copy, Debug, PartialEq, Eq)]
pub enum Wrote {
    /// A fork was made.
    Made(ForkId),
    /// A fork was cut to so many blocks.
    Cut(ForkId, u32),
    /// A fork was removed.
    Removed(ForkId),
    /// A page was written at its block.
    Wrote(BlockId),
}

/// One turn at writing what a partition has dirty or pending. Only `Partition::write_one` makes
/// one.
#[derive(Debug, Drop)]
pub struct Turn {
    pub(crate) part: u32,
    pub(crate) wrote: Option<Wrote>,
}

impl Turn {
    /// The partition's number.
    pub fn part(&self) -> u32
        ensures { result ≡ self.now.part }
    {
        self.part
    }

    /// What was written. None exactly where nothing was dirty or pending.
    pub fn wrote(&self) -> Option<Wrote>
        ensures { result ≡ self.now.wrote }
    {
        self.wrote
    }
}

/// All that a partition had dirty or pending was written, and its area was synced behind it. Only
/// `Partition::clean_all` makes one.
#[derive(Debug, Drop)]
pub struct Cleaned {
    pub(crate) part: u32,
    pub(crate) redo: Lsn,
}

impl Cleaned {
    /// The partition's number.
    pub fn part(&self) -> u32
        ensures { result ≡ self.now.part }
    {
        self.part
    }

    /// The redo point that was given.
    pub fn redo(&self) -> Lsn
        ensures { result ≡ self.now.redo }
    {
        self.redo
    }
}
