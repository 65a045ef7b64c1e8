//! Stores in memory, fork by fork.

ghost use Rattle.std.specs.Prelude.{◌≡◌, ◌-◌, [], ◌++◌, IfOk, OnOk, length, replicate};
ghost use Rattle.std.specs.FinMap.{insert};
ghost use Rattle.lsn_core.specs.Blocks.{pages_of, page_put, with_fork, with_cut, without_fork};
ghost use Rattle.pg_page.specs.Header.{zero_page};
ghost use Rattle.store_core.specs.Steps.{unread, with_forks};

use history::PageMap;
use lsn_core::{BlockId, ForkId, NoMemory, Pages};
use pg_page::zero_page;
use std::alloc::Global;

/// A store once more.
pub fn copied(alloc: Global, from: &PageMap) -> Result<PageMap, NoMemory>
    ensures { IfOk result (λ copy. copy ≡ from.now) }
{
    let mut copy = PageMap::new(alloc);
    let forks = from.forks(alloc)?;
    for i in 0..forks.len() {
        copy_fork(&mut copy, from, &forks[i])?;
    }
    Ok(copy)
}

/// Puts a fork of one store into another, with its pages.
fn copy_fork(copy: &mut PageMap, from: &PageMap, fork: &ForkId) -> Result<(), NoMemory>
    ensures { OnOk result (copy.new ≡ insert copy.old fork.now (pages_of from.now fork.now)) }
{
    empty_fork(copy, fork)?;
    let count = blocks_in(from, fork);
    for block in 0..count {
        let at = BlockId {
            fork: *fork,
            block: number(block)?,
        };
        put_page(copy, at, &from.page_at(&at))?;
    }
    Ok(())
}

/// Puts a fork of one store into another, with zeros in place of its pages.
pub fn add_unread(copy: &mut PageMap, from: &PageMap, fork: &ForkId) -> Result<(), NoMemory>
    ensures { OnOk result
        (copy.new ≡ insert copy.old fork.now (unread (pages_of from.now fork.now))) }
{
    empty_fork(copy, fork)?;
    let count = blocks_in(from, fork);
    if count > 0 {
        let at = BlockId {
            fork: *fork,
            block: number(count - 1)?,
        };
        put_page(copy, at, &zero_page())?;
    }
    Ok(())
}

/// Puts a fork of one store into another, with its pages, and zeros behind them up to so many.
pub fn raise_fork(
    copy: &mut PageMap,
    from: &PageMap,
    fork: &ForkId,
    count: u32,
) -> Result<(), NoMemory>
    ensures { OnOk result (copy.new ≡ insert copy.old fork.now (pages_of from.now fork.now
        ++ replicate (count - length (pages_of from.now fork.now)) zero_page)) }
{
    copy_fork(copy, from, fork)?;
    let size = blocks_in(from, fork);
    if count as usize > size {
        let at = BlockId {
            fork: *fork,
            block: count - 1,
        };
        put_page(copy, at, &zero_page())?;
    }
    Ok(())
}

/// A number that fits, as those of all blocks do that memory holds.
pub fn number(count: usize) -> Result<u32, NoMemory>
    ensures { IfOk result (λ n. n ≡ count) }
{
    if count > u32::MAX as usize {
        return Err(NoMemory);
    }
    Ok(count as u32)
}

/// How many pages a fork has; a missing fork has none.
pub fn blocks_in(store: &PageMap, fork: &ForkId) -> usize
    ensures { result ≡ length (pages_of store.now fork.now) }
{
    match store.blocks(fork) {
        Some(count) => count,
        None => 0,
    }
}

/// Makes a fork that has no page, whatever it was before.
pub fn empty_fork(store: &mut PageMap, fork: &ForkId) -> Result<(), NoMemory>
    ensures { OnOk result (store.new ≡ insert store.old fork.now []) }
{
    remove_fork(store, *fork)?;
    make_fork(store, *fork)?;
    Ok(())
}

/// Removes a fork, where there is one.
pub fn remove_fork(store: &mut PageMap, fork: ForkId) -> Result<(), NoMemory>
    ensures { OnOk result (store.new ≡ without_fork store.old fork) }
{
    store.remove(fork).map_err(|_| NoMemory)?;
    Ok(())
}

/// Puts a page at a block.
pub fn put_page(store: &mut PageMap, at: BlockId, page: &[u8; 8192]) -> Result<(), NoMemory>
    ensures { OnOk result (store.new ≡ page_put at page.now store.old) }
{
    if at.block == u32::MAX {
        return Err(NoMemory);
    }
    store.write_block(at, page).map_err(|_| NoMemory)?;
    Ok(())
}

/// Makes an empty fork, where there is none.
pub fn make_fork(store: &mut PageMap, fork: ForkId) -> Result<(), NoMemory>
    ensures { OnOk result (store.new ≡ with_fork store.old fork) }
{
    store.make(fork).map_err(|_| NoMemory)?;
    Ok(())
}

/// Leaves the first blocks of a fork alone, so many.
pub fn cut_fork(store: &mut PageMap, fork: ForkId, count: u32) -> Result<(), NoMemory>
    ensures { OnOk result (store.new ≡ with_cut store.old fork count) }
{
    store.cut(fork, count).map_err(|_| NoMemory)?;
    Ok(())
}
