//! The numbers of a file, before what they mean is judged.

ghost use Rattle.std.specs.Prelude.{◌≡◌};

use std::marker::Model;
use wal_summary::BlockNumbers;

/// The number at the front of a file, whose bytes are `SUM1` (profile).
pub const FILE_MAGIC: u32 = 0x314D_5553;

/// The number that stands where a fork has no limit (profile).
pub const NO_LIMIT: u32 = 0xFFFF_FFFF;

/// What a file tells of a fork: its relation's numbers, its own number, its limit and its blocks.
#[derive(Debug, Drop)]
pub struct ForkNumbers {
    pub db: u32,
    pub rel: u32,
    pub kind: u32,
    pub limit: u32,
    pub blocks: BlockNumbers,
}

/// What a file tells of forks, one after the other. Contracts see the list.
#[derive(Debug, Drop)]
pub struct ForkList {
    list: Vec<ForkNumbers>,
}

impl Model for ForkList {
    ghost use Rattle.std.specs.Prelude.{List};
    ghost use Rattle.summary_file.specs.declared.numbers.ForkNumbers.{ForkNumbers};

    ghost Value = { List ForkNumbers };

    ghost view = { λ f. f.list.items };
}

impl ForkList {
    /// These forks. Takes no memory.
    pub fn from_vec(list: Vec<ForkNumbers>) -> ForkList
        ensures { result ≡ list.items }
    {
        ForkList { list }
    }

    /// The forks as a vector again. Takes no memory.
    pub fn into_vec(self) -> Vec<ForkNumbers>
        ensures { result.items ≡ self }
    {
        self.list
    }
}

/// All numbers of a file but the sum at its end.
#[derive(Debug, Drop)]
pub struct FileNumbers {
    pub magic: u32,
    pub start: u64,
    pub end: u64,
    pub made: u64,
    pub forks: ForkList,
}
