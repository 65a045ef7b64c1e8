//! How many blocks stand in one file of a fork.

ghost use Rattle.std.specs.Prelude.{◌≡◌, ◌+◌, ◌*◌, ◌/◌, ◌%◌, ◌<◌, ◌≤◌, ◌^◌};
ghost use Rattle.lsn_core.specs.Segment.{IsRelseg};
ghost use Rattle.rel_files.specs.Inside.{last_file};

use std::marker::Model;

/// How many blocks stand in one file of a fork, 1 to 131,072 (PostgreSQL manual, configure
/// --with-segsize-blocks). Contracts see the number.
#[derive(Clone, Copy, Debug, PartialEq, Eq)]
pub struct Relseg {
    blocks: u32,
}

impl Model for Relseg {
    ghost use Rattle.std.specs.Prelude.{ℕ};
    ghost use Rattle.lsn_core.specs.Segment.{IsRelseg};

    ghost Value = { ℕ };

    ghost view = { λ r. r.blocks };

    ghost invariant = { λ r. IsRelseg r.blocks };

    ghost inverse = { λ blocks. record { blocks = blocks } };
}

impl Relseg {
    /// So many blocks.
    pub fn new(blocks: u32) -> Relseg
        requires { IsRelseg blocks }
        ensures { result ≡ blocks }
    {
        Relseg { blocks }
    }

    /// The number.
    pub fn blocks(self) -> u32
        ensures value { result ≡ self }
        ensures range { IsRelseg self }
    {
        self.blocks
    }

    /// The segment file that has a block.
    pub fn file_of(self, block: u32) -> u32
        ensures value { result ≡ block / self }
        ensures range { IsRelseg self }
    {
        block / self.blocks
    }

    /// Where a block begins in its file, in bytes.
    pub fn place_of(self, block: u32) -> u64
        ensures { result ≡ (block % self) * 8192 }
    {
        u64::from(block % self.blocks) * 8192
    }

    /// The last segment file of so many blocks.
    pub fn last_file(self, blocks: u32) -> u32
        ensures { result ≡ last_file self blocks }
    {
        blocks.saturating_sub(1) / self.blocks
    }
}
