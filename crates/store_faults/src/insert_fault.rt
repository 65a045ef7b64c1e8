//! Why an open store refuses a command.

use lsn_core::StoreArea;

/// Why a command was refused (profile). A `u64` is the number of entries of the history that it was
/// judged against, a `u32` the number of an item or of its fragment, counted from 0. A refusal
/// leaves the history and all pages as they are.
#[derive(Clone, Copy, Debug, PartialEq, Eq)]
pub enum InsertFault {
    /// The fork isn't there; of a truncation, the main fork of the relation.
    NoFork(u64),
    /// The fork that is to be created is there.
    ForkExists(u64),
    /// A page is put at a block behind the end of its fork.
    PastEnd(u64),
    /// The block that is patched isn't there.
    NoBlock(u64),
    /// The patch of this item leaves a bad page header.
    BadPage(u32, u64),
    /// This item is the first with a bad fragment, which is this one.
    BadFragment(u32, u32),
    /// There is no item, or there are more than 4.
    BlockCount,
    /// Two items are of different relations.
    TwoRelations,
    /// The fork would have more than 32,768 pages.
    ForkFull(u64),
    /// The store would have more than 65,536 pages.
    StoreFull(u64),
    /// The fork has fewer blocks than it is to be cut to.
    CutPastEnd(u64),
    /// A call on this area failed, before the command was judged on its pages.
    Failed(StoreArea),
    /// Memory ran out.
    NoMemory,
    /// This item names the block of an earlier one.
    SameBlock(u32),
    /// The entry would end past segment 1,048,576.
    WalFull(u64),
}
