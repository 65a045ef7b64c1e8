//! A command that is ready to be done.

ghost use Rattle.std.specs.Prelude.{◌≡◌};

use lsn_core::{BlockId, ForkId, Rel};
use std::boxed::Box;
use wal_record::Kind;

/// A page that is to stand at a block, but for its LSN.
#[derive(Drop)]
pub(crate) struct NewPage {
    pub at: BlockId,
    pub page: Box<[u8; 8192]>,
}

/// What a command does to the pages.
#[derive(Drop)]
pub(crate) enum Done {
    /// It creates a fork.
    Created(ForkId),
    /// It cuts the main fork of a relation to so many blocks.
    Cut(Rel, u32),
    /// It puts pages.
    Put(Vec<NewPage>),
    /// It takes away all forks of a relation.
    Dropped(Rel),
}

/// A command that may be done on a partition, as `Partition::check_op` found it: the kind of its
/// WAL entry, how many pages it adds and takes away, and all memory that its doing needs.
#[derive(Drop)]
pub struct Ready {
    pub(crate) kind: Kind,
    pub(crate) added: u64,
    pub(crate) gone: u64,
    pub(crate) done: Done,
}

impl Ready {
    /// The kind of the WAL entry that the command is written as, once.
    pub fn take_kind(&mut self) -> Kind
        ensures kind { result ≡ self.old.kind }
        ensures added { self.new.added ≡ self.old.added }
        ensures gone { self.new.gone ≡ self.old.gone }
        ensures done { self.new.done ≡ self.old.done }
    {
        std::mem::replace(&mut self.kind, Kind::NoOp)
    }

    /// How many pages it adds.
    pub fn added(&self) -> u64
        ensures { result ≡ self.now.added }
    {
        self.added
    }

    /// How many pages it takes away.
    pub fn gone(&self) -> u64
        ensures { result ≡ self.now.gone }
    {
        self.gone
    }
}
