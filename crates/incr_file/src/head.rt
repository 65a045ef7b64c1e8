//! The head of an incremental file.

ghost use Rattle.std.specs.Prelude.{◌≡◌, ◌↔◌, IsTrue, IsSome, IfSome};
ghost use Rattle.std.specs.List.Sorted.{IsStrictlyIncreasing};

use std::marker::Model;

/// The number at the front of an incremental file (profile).
pub(crate) const HEAD_MAGIC: u32 = 0xD3AE_1F0D;

/// The blocks that an incremental file holds: rising numbers, counted from the first block of the
/// segment. Contracts see the list.
#[derive(Debug, Drop)]
pub struct HeadBlocks {
    list: Vec<u32>,
}

impl Model for HeadBlocks {
    ghost use Rattle.std.specs.Prelude.{List, ℕ};
    ghost use Rattle.std.specs.List.Sorted.{IsStrictlyIncreasing};

    ghost Value = { List ℕ };

    ghost view = { λ b. b.list.items };

    ghost invariant = { λ b. IsStrictlyIncreasing b.list.items };
}

/// What an incremental file tells of itself before its blocks (profile, after the incremental files
/// of PostgreSQL's pg_basebackup).
#[derive(Debug, Drop)]
pub struct IncrHead {
    /// The truncation length: so many blocks of the segment file are taken from earlier backups
    /// where the file doesn't hold them, and none behind them.
    pub truncation: u32,
    /// The blocks that the file holds.
    pub blocks: HeadBlocks,
}

/// A head as it was read.
#[derive(Debug, Drop)]
pub struct HeadView {
    /// What the file tells.
    pub head: IncrHead,
    /// Where the first block that it holds begins, in bytes; 12 where it holds none.
    pub body: u64,
}

/// Whether each number is below the next.
fn is_rising(numbers: &[u32]) -> bool
    ensures { IsTrue result ↔ IsStrictlyIncreasing numbers.now }
{
    numbers.is_sorted_by(|a, b| *a < *b)
}

impl HeadBlocks {
    /// These blocks. None exactly where they don't rise.
    pub fn from_vec(blocks: Vec<u32>) -> Option<HeadBlocks>
        ensures rising { IsSome result ↔ IsStrictlyIncreasing blocks.items }
        ensures list { IfSome result (λ list. list ≡ blocks.items) }
    {
        if is_rising(&blocks) {
            Some(HeadBlocks { list: blocks })
        } else {
            None
        }
    }

    /// These blocks, which rise.
    pub fn from_rising(blocks: Vec<u32>) -> HeadBlocks
        requires { IsStrictlyIncreasing blocks.items }
        ensures { result ≡ blocks.items }
    {
        HeadBlocks { list: blocks }
    }

    /// The numbers, in order.
    pub fn as_slice(&self) -> &[u32]
        ensures list { result.now ≡ self.now }
        ensures rising { IsStrictlyIncreasing self.now }
    {
        &self.list
    }
}
