//! A new WAL in memory to which entries are appended, and one that is flushed up to where its third
//! entry ends.

ghost use Rattle.std.specs.Prelude.{◌≡◌, ◌<◌, IfOk, IfSome};
ghost use Rattle.lsn_core.specs.Sizes.{most_blocks};
ghost use Rattle.wal_record.specs.Spelling.{IsWritable};
ghost use Rattle.wal_record.specs.Tips.{IsWithin};

use history::checkpointer::{change_kind, creation_kind};
use history::{Edit, Item};
use lsn_core::{BlockId, Lsn, NoMemory, SegSize, Settings, WalTip};
use memory_vault::MemVault;
use pg_page::{Page, make_page, zero_page};
use std::alloc::Global;
use test_areas::{Change, NEW_WAL, SEGMENT, Wrong, main_fork, make_all};
use wal_record::Kind;
use wal_writer::{Flushed, WalState};

/// Where the entry of the first page of 5/16384 ends, behind that of the fork's creation, which is
/// the second one of the WAL. The place is that of an independent implementation of the formats.
pub const PUT: Lsn = Lsn(0x100108);

/// The tip behind the first entry of a new WAL.
pub const BEHIND_FIRST: WalTip = WalTip {
    end: Lsn(0x100060),
    prev: Lsn(0x100028),
    redo: Lsn(0x100028),
    count: 1,
};

/// The settings of that WAL.
pub fn settings() -> Option<Settings>
    ensures { IfSome result (λ s. s.segment ≡ 1) }
{
    Settings::new(SegSize::new(1)?, 131_072, 7)
}

/// A new WAL, whose first entry has this tip behind it.
pub fn new_wal(alloc: Global, tip: WalTip) -> Result<WalState<MemVault>, Wrong>
    requires { IsWithin 1 tip }
{
    let settings = settings().ok_or(Wrong::Step(0))?;
    let mut area = MemVault::new(alloc, &[])?;
    make_all(&mut area, &[Change::Write(SEGMENT, 0, &NEW_WAL)])?;
    Ok(WalState::attach(alloc, area, settings, tip))
}

/// A page whose bytes before and behind its hole, from 32 to 8160, are this one.
pub fn page_of(alloc: Global, fill: u8) -> Result<Option<Page>, NoMemory> {
    Ok(make_page(alloc, 32, 8160, fill)?)
}

/// The kind of entry that puts this page at a block.
pub fn put_kind(alloc: Global, at: BlockId, page: Page) -> Result<Kind, NoMemory>
    requires { at.block < most_blocks }
    ensures { IfOk result IsWritable }
{
    let edit = Edit::Put(page);
    change_kind(alloc, &[Item { at, edit }], &[zero_page()], Lsn(0))
}

/// Appends an entry of this kind.
pub fn append(alloc: Global, wal: &mut WalState<MemVault>, kind: Kind) -> Result<(), Wrong>
    requires { IsWritable kind }
{
    match wal.append(alloc, kind) {
        Ok(_) => Ok(()),
        Err(_) => Err(Wrong::Step(1)),
    }
}

/// Flushes all that was appended.
pub fn flush(alloc: Global, wal: &mut WalState<MemVault>) -> Result<Flushed, Wrong> {
    let end = wal.end();
    Ok(wal.flush_to(alloc, end)?)
}

/// The mark of a flush behind both entries.
pub fn flushed(alloc: Global) -> Result<Flushed, Wrong> {
    let fork = main_fork(16384).ok_or(Wrong::Step(0))?;
    let page = page_of(alloc, 65)?.ok_or(Wrong::Step(0))?;
    let mut wal = new_wal(alloc, BEHIND_FIRST)?;
    append(alloc, &mut wal, creation_kind(fork))?;
    let first = BlockId { fork, block: 0 };
    append(alloc, &mut wal, put_kind(alloc, first, page)?)?;
    let mark = flush(alloc, &mut wal)?;
    if mark.to() == PUT {
        Ok(mark)
    } else {
        Err(Wrong::Step(2))
    }
}
