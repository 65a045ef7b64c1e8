//! What the machine answers.

ghost use Rattle.std.specs.Prelude.{◌≡◌};

use lsn_core::{BlockId, ForkId, ForkLen, Lsn, Place};
use std::marker::Model;

/// The answer to a step.
#[derive(Debug, Drop)]
pub enum Reply {
    /// The step isn't enabled: nothing was done.
    Idle,
    /// The command was accepted.
    Accepted(Receipt),
    /// The command was refused: nothing was done.
    Refused(Refusal),
    /// The step's mark would end past segment 1,048,576, behind so many entries: nothing was done.
    WalFull(u64),
    /// This was written to the partition's disk.
    Written(Wrote),
    /// The partition is clean, as of this redo point.
    Cleaned(Lsn),
    /// The checkpoint started here: its redo point.
    Started(Lsn),
    /// The checkpoint's end stands here.
    Completed(Lsn),
    /// A summary of the range that ends here was published.
    Published(Lsn),
    /// The forks and their lengths, in order.
    Listed(Lengths),
    /// Whether the disk had the block. One that it hasn't is copied as zeros.
    Copied(bool),
    /// The backup ended here.
    Ended(Lsn),
}

/// What an accepted command became: the entry of this number in the history, counted from 0, the
/// next one among its worker's commands, counted from 0, and where the entry stands in the WAL.
#[derive(Clone, Copy, Debug, PartialEq, Eq)]
pub struct Receipt {
    pub number: u64,
    pub seq: u64,
    pub place: Place,
}

/// What was written to a partition's disk.
#[derive(Clone, Copy, Debug, PartialEq, Eq)]
pub enum Wrote {
    /// A fork was made.
    Made(ForkId),
    /// A fork was cut to so many blocks.
    Cut(ForkId, u32),
    /// A fork was removed.
    Removed(ForkId),
    /// A page was written at its block.
    Page(BlockId),
}

/// Why a command is refused (profile). A `u64` is the number of entries of the history that it was
/// judged against, a `u32` the number of an item or of its fragment, counted from 0.
#[derive(Clone, Copy, Debug, PartialEq, Eq)]
pub enum Refusal {
    /// The fork isn't there; of a truncation, the main fork of the relation; of a drop, no fork of
    /// it.
    NoFork(u64),
    /// The fork that is to be created is there.
    ForkExists(u64),
    /// A page is put at a block behind the end of its fork.
    PastEnd(u64),
    /// The block that is patched isn't there.
    NoBlock(u64),
    /// The patch of this item leaves a bad page header.
    BadPage(u32, u64),
    /// This item is the first with a bad fragment, which is this one.
    BadFragment(u32, u32),
    /// There is no item, or there are more than 4.
    BlockCount,
    /// Two items are of different relations.
    TwoRelations,
    /// The fork would have more than 32,768 pages.
    ForkFull(u64),
    /// The store would have more than 65,536 pages.
    StoreFull(u64),
    /// The fork has fewer blocks than it is to be cut to.
    CutPastEnd(u64),
    /// This item names the block of an earlier one.
    SameBlock(u32),
    /// The entry would end past segment 1,048,576.
    WalFull(u64),
}

/// Forks with their lengths, in order. Contracts see the list.
#[derive(Debug, Drop)]
pub struct Lengths {
    list: Vec<ForkLen>,
}

impl Model for Lengths {
    ghost use Rattle.std.specs.Prelude.{List};
    ghost use Rattle.lsn_core.specs.declared.ids.ForkLen.{ForkLen};

    ghost Value = { List ForkLen };

    ghost view = { λ l. l.list.items };
}

impl Lengths {
    /// These forks. Takes no memory.
    pub fn from_vec(list: Vec<ForkLen>) -> Lengths
        ensures { result ≡ list.items }
    {
        Lengths { list }
    }

    /// The forks with their lengths.
    pub fn as_slice(&self) -> &[ForkLen]
        ensures { result.now ≡ self.now }
    {
        &self.list
    }
}
