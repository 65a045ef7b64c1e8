//! Finished backups, and the stores that incremental ones make over earlier ones.

ghost use Rattle.std.specs.Prelude.{◌≡◌, IfOk, OnOk};
ghost use Rattle.std.specs.FinMap.{insert};
ghost use Rattle.history.specs.Whole.{is_named};
ghost use Rattle.store_core.specs.Increments.{page_over, pages_over, copy_over, made_over};
ghost use Rattle.core_machine.specs.Shown.{finished_in};

use history::{PageMap, is_same_block};
use lsn_core::{BlockId, ForkId, Lsn, NoMemory};
use std::alloc::Global;
use store_core::stores::{blocks_in, copied, empty_fork, number, put_page};

/// A finished backup: its copy, where it starts and where it ends; and, of an incremental one, what
/// was sent. The copy of an incremental one has zeros where a block wasn't sent, and each fork as
/// long as its files are rebuilt.
#[derive(Drop)]
pub struct FinishedBackup {
    pub copy: PageMap,
    pub start: Lsn,
    pub end: Lsn,
    pub sent: Option<SentBlocks>,
}

/// What an incremental backup tells besides its copy: the start of the backup that it is made over,
/// and the blocks that it has. It has the others from that backup.
#[derive(Drop)]
pub struct SentBlocks {
    pub prior: Lsn,
    pub blocks: Vec<BlockId>,
}

impl FinishedBackup {
    /// The store that the backup makes over an earlier one, which is that of the backup that an
    /// incremental one was made over, by itself or over an earlier one again. A full backup makes
    /// its own copy.
    pub fn made_over(&self, alloc: Global, prior: &PageMap) -> Result<PageMap, NoMemory>
        ensures { IfOk result (λ store. store
            ≡ made_over (finished_in self.now) (finished_in self.now).increment prior.now) }
    {
        match &self.sent {
            None => copied(alloc, &self.copy),
            Some(sent) => copy_over(alloc, &sent.blocks, &self.copy, prior),
        }
    }
}

/// The store that sent blocks make over an earlier one.
fn copy_over(
    alloc: Global,
    sent: &[BlockId],
    copy: &PageMap,
    prior: &PageMap,
) -> Result<PageMap, NoMemory>
    ensures { IfOk result (λ store. store ≡ copy_over sent.now copy.now prior.now) }
{
    let mut store = PageMap::new(alloc);
    let forks = copy.forks(alloc)?;
    for i in 0..forks.len() {
        put_fork(&mut store, sent, copy, prior, &forks[i])?;
    }
    Ok(store)
}

/// Puts a fork of a backup into a store, with its pages over an earlier copy.
fn put_fork(
    store: &mut PageMap,
    sent: &[BlockId],
    copy: &PageMap,
    prior: &PageMap,
    fork: &ForkId,
) -> Result<(), NoMemory>
    ensures { OnOk result (store.new
        ≡ insert store.old fork.now (pages_over sent.now copy.now prior.now fork.now)) }
{
    empty_fork(store, fork)?;
    let count = blocks_in(copy, fork);
    for block in 0..count {
        let at = BlockId {
            fork: *fork,
            block: number(block)?,
        };
        put_page(store, at, &page_over(sent, copy, prior, &at))?;
    }
    Ok(())
}

/// A page of an incremental backup over an earlier copy.
fn page_over(sent: &[BlockId], copy: &PageMap, prior: &PageMap, at: &BlockId) -> [u8; 8192]
    ensures { result ≡ page_over sent.now copy.now prior.now at.now }
{
    if is_among(at, sent) {
        copy.page_at(at)
    } else {
        prior.page_at(at)
    }
}

/// Whether a block is among these.
pub(crate) fn is_among(at: &BlockId, blocks: &[BlockId]) -> bool
    ensures { result ≡ is_named at.now blocks.now }
{
    blocks.iter().any(|other| is_same_block(at, other))
}
