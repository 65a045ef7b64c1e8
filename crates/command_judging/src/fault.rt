//! Why a command can't be done on a partition.

ghost use Rattle.std.specs.Prelude.{◌≡◌};
ghost use Rattle.command_judging.specs.declared.fault.OpFault.TheVariants as fault;

use lsn_core::NoMemory;

/// Why a command can't be done on a partition's pages (profile). A number is that of an item, or of
/// its fragment, counted from 0.
#[derive(Clone, Copy, Debug, PartialEq, Eq)]
pub enum OpFault {
    /// The fork isn't there; of a truncation, the main fork of the relation.
    NoFork,
    /// The fork that is to be created is there.
    ForkExists,
    /// A page is put at a block behind the end of its fork.
    PastEnd,
    /// The block that is patched isn't there.
    NoBlock,
    /// The patch of this item leaves a bad page header.
    BadPage(u32),
    /// This item is the first with a bad fragment, which is this one.
    BadFragment(u32, u32),
    /// The fork would have more than 32,768 pages.
    ForkFull,
    /// The fork has fewer blocks than it is to be cut to.
    CutPastEnd,
    /// This item names the block of an earlier one.
    SameBlock(u32),
    /// Memory ran out.
    NoMemory,
}

impl From<NoMemory> for OpFault {
    ghost from_gives = { λ _ e. e ≡ fault.NoMemory };

    fn from(_: NoMemory) -> Self {
        OpFault::NoMemory
    }
}
