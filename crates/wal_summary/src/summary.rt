//! What a summary is.

ghost use Rattle.std.specs.Prelude.{◌≡◌};

use lsn_core::{ForkId, Lsn};
use std::marker::Model;

/// Numbers of blocks of a fork, rising. Contracts see the list.
#[derive(Debug, Drop)]
pub struct BlockNumbers {
    list: Vec<u32>,
}

impl Model for BlockNumbers {
    ghost use Rattle.std.specs.Prelude.{List, ℕ};

    ghost Value = { List ℕ };

    ghost view = { λ b. b.list.items };
}

impl BlockNumbers {
    /// These numbers. Takes no memory.
    pub fn from_vec(list: Vec<u32>) -> BlockNumbers
        ensures { result ≡ list.items }
    {
        BlockNumbers { list }
    }

    /// The numbers.
    pub fn as_slice(&self) -> &[u32]
        ensures { result.now ≡ self.now }
    {
        &self.list
    }
}

/// What a summary says of a fork: the least length to which it was cut in the range, or 0 where it
/// was created there, and the blocks that were touched since (pg_walsummary's limit and blocks;
/// that a limit takes off earlier blocks is our profile).
#[derive(Debug, Drop)]
pub struct ForkSummary {
    pub fork: ForkId,
    pub limit: Option<u32>,
    pub blocks: BlockNumbers,
}

/// The forks of a summary, in order: by database, relation and kind. Contracts see the list.
#[derive(Debug, Drop)]
pub struct ForkSummaries {
    list: Vec<ForkSummary>,
}

impl Model for ForkSummaries {
    ghost use Rattle.std.specs.Prelude.{List};
    ghost use Rattle.wal_summary.specs.declared.summary.ForkSummary.{ForkSummary};

    ghost Value = { List ForkSummary };

    ghost view = { λ f. f.list.items };
}

impl ForkSummaries {
    /// These forks. Takes no memory.
    pub fn from_vec(list: Vec<ForkSummary>) -> ForkSummaries
        ensures { result ≡ list.items }
    {
        ForkSummaries { list }
    }

    /// The forks.
    pub fn as_slice(&self) -> &[ForkSummary]
        ensures { result.now ≡ self.now }
    {
        &self.list
    }
}

/// The summary of the entries that start in a range of the WAL: at `start` or past it, and below
/// `end`. It was made at `made`, in seconds since 1970 UTC.
#[derive(Debug, Drop)]
pub struct Summary {
    pub start: Lsn,
    pub end: Lsn,
    pub made: u64,
    pub forks: ForkSummaries,
}
