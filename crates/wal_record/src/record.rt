//! What an entry of the WAL is.

ghost use Rattle.std.specs.Prelude.{◌≡◌, [], ◌∷◌, IfOk};
ghost use Rattle.wal_record.specs.declared.record.RecordFault.TheVariants.{Content, NoMemory};

use lsn_core::{BlockId, ForkId, Lsn, Rel};
use pg_page::{Frags, Page};
use std::alloc::{AllocError, AllocFailed, Global};
use std::marker::Model;

/// An entry of the WAL: where it stands, where the entry before it starts (0 for the first one),
/// the transaction that wrote it, and what it says.
#[derive(Debug, Drop)]
pub struct Record {
    pub start: Lsn,
    pub end: Lsn,
    pub prev: Lsn,
    pub xid: u32,
    pub kind: Kind,
}

/// What an entry says (catalog/pg_control.h, catalog/storage_xlog.h, access/generic_xlog.h).
#[derive(Debug, Drop)]
pub enum Kind {
    /// A checkpoint at shutdown, with its redo point.
    Shutdown(Lsn),
    /// A checkpoint of a running store, with its redo point.
    Online(Lsn),
    /// The start of a checkpoint, which is its redo point, with its number.
    RedoMark(u32),
    /// Nothing.
    NoOp,
    /// The end of a backup, with the place where it started.
    BackupEnd(Lsn),
    /// Pages of one or more relations, as a whole.
    Images(Blocks),
    /// Blocks of one or more relations that changed.
    Generic(Blocks),
    /// A fork is created.
    Create(ForkId),
    /// A relation is truncated to so many blocks, with flags: 1 its main fork, 2 and 4 others.
    Truncate(Rel, u32, u32),
    /// A transaction commits, at a time, and drops these relations (access/xact.h).
    Commit(i64, Rels),
}

/// The relations of an entry, in order. Contracts see the list.
#[derive(Debug, Drop)]
pub struct Rels {
    list: Vec<Rel>,
}

impl Model for Rels {
    ghost use Rattle.std.specs.Prelude.{List};
    ghost use Rattle.lsn_core.specs.Relation.{Relation};

    ghost Value = { List Relation };

    ghost view = { λ r. r.list.items };
}

impl Rels {
    /// These relations. Takes no memory.
    pub fn from_vec(list: Vec<Rel>) -> Rels
        ensures { result ≡ list.items }
    {
        Rels { list }
    }

    /// No relations.
    pub fn none(alloc: Global) -> Rels
        ensures { result ≡ [] }
    {
        Rels {
            list: Vec::new(alloc),
        }
    }

    /// One relation.
    pub fn one(alloc: Global, rel: Rel) -> Result<Rels, AllocError>
        ensures { IfOk result (λ r. r ≡ rel ∷ []) }
    {
        let mut list = Vec::new(alloc);
        list.push(rel)?;
        Ok(Rels { list })
    }

    /// The relations.
    pub fn as_slice(&self) -> &[Rel]
        ensures { result.now ≡ self.now }
    {
        &self.list
    }
}

/// The blocks of an entry, in order. Contracts see the list.
#[derive(Debug, Drop)]
pub struct Blocks {
    list: Vec<BlockRef>,
}

impl Model for Blocks {
    ghost use Rattle.std.specs.Prelude.{List};
    ghost use Rattle.wal_record.specs.declared.record.BlockRef.{BlockRef};

    ghost Value = { List BlockRef };

    ghost view = { λ b. b.list.items };
}

impl Blocks {
    /// These blocks. Takes no memory.
    pub fn from_vec(list: Vec<BlockRef>) -> Blocks
        ensures { result ≡ list.items }
    {
        Blocks { list }
    }

    /// One block with what it says of it.
    pub fn one(alloc: Global, at: BlockId, body: Body) -> Result<Blocks, AllocError>
        ensures { IfOk result (λ b. b ≡ record { at = at; body = body } ∷ []) }
    {
        let mut list = Vec::new(alloc);
        list.push(BlockRef { at, body })?;
        Ok(Blocks { list })
    }

    /// The blocks.
    pub fn as_slice(&self) -> &[BlockRef]
        ensures { result.now ≡ self.now }
    {
        &self.list
    }
}

/// A block of an entry, and how the entry changes it.
#[derive(Debug, Drop)]
pub struct BlockRef {
    pub at: BlockId,
    pub body: Body,
}

/// How an entry changes a block.
#[derive(Debug, Drop)]
pub enum Body {
    /// The page as a whole.
    Image(Page),
    /// Bytes that are written over the page, at these places.
    Delta(Frags),
}

/// Why bytes are no entry. The first one that holds, in this order.
#[derive(Clone, Copy, Debug, PartialEq, Eq)]
pub enum RecordFault {
    /// The total length is below 24 or above 4,194,304, or there are fewer bytes.
    Length,
    /// The link isn't to the start of the entry before.
    Prev,
    /// The sum isn't that of the bytes.
    Crc,
    /// The manager and the info byte are those of no kind.
    Unsupported(u8, u8),
    /// The announcements of blocks and main data don't fit each other or the total length.
    Header,
    /// What the entry says is refused.
    Content(Why),
    /// Memory ran out.
    NoMemory,
}

/// Why what an entry says is refused (profile).
#[derive(Clone, Copy, Debug, PartialEq, Eq)]
pub enum Why {
    /// The information bits of a commit tell other things than dropped relations.
    CommitBits,
    /// An image is compressed.
    Compressed,
    /// An image isn't to be applied.
    NotApplied,
    /// A tablespace other than 1663.
    Tablespace,
    /// A fork other than main and init.
    Fork,
    /// A database or relation number of 0.
    Relation,
    /// A block number of 32,768 or more.
    BlockRange,
    /// The page of an image has a bad header.
    ImagePage,
    /// A delta is no list of good fragments.
    Fragments,
    /// Blocks or main data that the kind doesn't have.
    Shape,
    /// The first entry of the archive is no shutdown checkpoint whose redo point is its own start.
    First,
}

impl From<Why> for RecordFault {
    ghost from_gives = { λ why e. e ≡ Content why };

    fn from(why: Why) -> Self {
        RecordFault::Content(why)
    }
}

impl From<AllocError> for RecordFault {
    ghost from_gives = { λ _ e. e ≡ NoMemory };

    fn from(_: AllocError) -> Self {
        RecordFault::NoMemory
    }
}

impl<T: Drop> From<AllocFailed<T>> for RecordFault {
    ghost from_gives = { λ _ e. e ≡ NoMemory };

    fn from(_: AllocFailed<T>) -> Self {
        RecordFault::NoMemory
    }
}
