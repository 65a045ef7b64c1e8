//! What is marked of one fork.

ghost use Rattle.std.specs.Prelude.{◌≡◌, ◌&&◌, ◌||◌, ◌==◌, ℕ, false, None, Some, not, nat_le, OnOk};
ghost use Rattle.history.specs.fuzzy_copies.Summary.{least};
ghost use Rattle.wal_summary.specs.Marks.{has_block};

use lsn_core::NoMemory;
use std::alloc::Global;
use std::collections::BTreeSet;

/// The least length to which a fork was cut, and the blocks that were touched since.
#[derive(Drop)]
pub(crate) struct ForkMarks {
    pub limit: Option<u32>,
    pub blocks: BTreeSet<u32>,
}

impl ForkMarks {
    /// Nothing is marked.
    pub(crate) fn new(alloc: Global) -> ForkMarks
        ensures limit { result.limit ≡ None }
        ensures blocks { (block : ℕ) → has_block result block ≡ false }
    {
        ForkMarks {
            limit: None,
            blocks: BTreeSet::new(alloc),
        }
    }

    /// Marks a block.
    pub(crate) fn touch(&mut self, block: u32) -> Result<(), NoMemory>
        ensures limit { self.new.limit ≡ self.old.limit }
        ensures blocks { OnOk result
            ((b : ℕ) → has_block self.new b ≡ (has_block self.old b || (b == block))) }
    {
        self.blocks.insert(block)?;
        Ok(())
    }

    /// Lowers the limit to this length at most, and takes off the blocks at it or past it.
    pub(crate) fn cut(&mut self, count: u32) -> Result<(), NoMemory>
        ensures limit { self.new.limit ≡ least self.old.limit (Some count) }
        ensures blocks { OnOk result
            ((b : ℕ) → has_block self.new b ≡ (has_block self.old b && not (nat_le count b))) }
    {
        self.limit = Some(match self.limit {
            Some(limit) => limit.min(count),
            None => count,
        });
        let _ = self.blocks.split_off(&count)?;
        Ok(())
    }
}
