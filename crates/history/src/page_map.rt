//! A store of pages in memory.

ghost use Rattle.std.specs.Prelude.{◌≡◌, ◌-◌, ◌<◌, ◌≤◌, ◌^◌};
ghost use Rattle.std.specs.Prelude.{length, slice_get, OnOk, OnErr, IfOk};
ghost use Rattle.std.specs.FinMap.{empty, keys, len};
ghost use Rattle.std.specs.Option.{option_map};
ghost use Rattle.lsn_core.specs.Blocks.{block_of, block_count, pages_of, with_block, page_put, with_fork, with_cut};
ghost use Rattle.history.specs.Apply.{page_at};
ghost use Rattle.history.specs.Pages.{store_in, page_count};
ghost use Rattle.history.specs.Inside.{IsRecounted};

use lsn_core::{BlockId, ForkId, NoMemory};
use pg_page::zero_page;
use std::alloc::Global;
use std::collections::BTreeMap;
use std::marker::Model;

/// A store of pages in memory: the pages of each fork, and how many there are. Contracts see the
/// store.
#[derive(Drop)]
pub struct PageMap {
    pub(crate) forks: BTreeMap<ForkId, Vec<[u8; 8192]>>,
    /// How many pages all forks have together. None once that was past the number's type.
    pub(crate) total: Option<u64>,
    alloc: Global,
}

impl Model for PageMap {
    ghost use Rattle.lsn_core.specs.Store.{Store};
    ghost use Rattle.history.specs.Pages.{store_code};

    ghost Value = { Store };

    ghost coded = { store_code };

    ghost use Rattle.history.specs.Pages.{store_in};
    ghost use Rattle.history.specs.Pages.{IsTotal};

    ghost view = { λ m. store_in m.forks };

    ghost invariant = { λ m. IsTotal m.total (store_in m.forks) };
}

impl PageMap {
    /// The empty store.
    pub fn new(alloc: Global) -> PageMap
        ensures { result ≡ empty }
    {
        PageMap {
            forks: BTreeMap::new(alloc),
            total: Some(0),
            alloc,
        }
    }

    /// The forks, in order: by database, relation and kind.
    pub fn forks(&self, alloc: Global) -> Result<Vec<ForkId>, NoMemory>
        ensures { IfOk result (λ forks. forks.items ≡ keys self.now) }
    {
        Ok(self.forks.keys().copied().collect(alloc)?)
    }

    /// How many forks there are.
    pub fn fork_count(&self) -> u64
        ensures { result ≡ len self.now }
    {
        self.forks.len() as u64
    }

    /// How many pages all forks have together. `NoMemory` exactly where that is past the number's
    /// type, which no memory holds.
    pub fn page_count(&self) -> Result<u64, NoMemory>
        ensures count { IfOk result (λ count. count ≡ page_count self.now) }
        ensures many { OnErr result (2 ^ 64 ≤ page_count self.now) }
    {
        match self.total {
            Some(total) => Ok(total),
            None => self.counted(),
        }
    }

    /// The same, counted fork by fork.
    fn counted(&self) -> Result<u64, NoMemory>
        ensures count { IfOk result (λ count. count ≡ page_count self.now) }
        ensures many { OnErr result (2 ^ 64 ≤ page_count self.now) }
    {
        let mut count: u64 = 0;
        for pages in self.forks.values() {
            count = count.checked_add(pages.len() as u64).ok_or(NoMemory)?;
        }
        Ok(count)
    }

    /// How many blocks a fork has. None exactly where there is no such fork.
    pub fn blocks(&self, fork: &ForkId) -> Option<usize>
        ensures { result ≡ block_count self.now fork.now }
    {
        match self.forks.get(fork) {
            Some(pages) => Some(pages.len()),
            None => None,
        }
    }

    /// The bytes of a block. None exactly where the fork has no such block, or isn't there.
    pub fn block(&self, at: &BlockId) -> Option<&[u8; 8192]>
        ensures { option_map (λ p. p.now) result ≡ block_of self.now at.now.fork at.now.block }
    {
        match self.forks.get(&at.fork) {
            Some(pages) => page_at(pages, at.block),
            None => None,
        }
    }

    /// Makes an empty fork, where there is none.
    pub(crate) fn create(&mut self, fork: &ForkId) -> Result<(), NoMemory>
        ensures made { OnOk result (self.new ≡ with_fork self.old fork.now) }
        ensures same { OnErr result (self.new ≡ self.old) }
    {
        create_in(&mut self.forks, fork, self.alloc)?;
        Ok(())
    }

    /// Leaves a fork's first pages alone, so many; a missing fork stays missing.
    pub(crate) fn cut(&mut self, fork: &ForkId, count: usize)
        ensures { self.new ≡ with_cut self.old fork.now count }
    {
        let before = length_in(&self.forks, fork);
        cut_in(&mut self.forks, fork, count);
        self.total = recounted(self.total, before, length_in(&self.forks, fork));
    }

    /// Where the store takes its memory.
    pub(crate) fn alloc(&self) -> Global {
        self.alloc
    }

    /// The bytes of a block, or of a zero page where there is none.
    pub fn page_at(&self, at: &BlockId) -> [u8; 8192]
        ensures { result ≡ page_at self.now at.now }
    {
        match self.block(at) {
            Some(page) => *page,
            None => zero_page(),
        }
    }

    /// Puts a page at a block; a missing fork and missing pages before it are made.
    pub(crate) fn put(&mut self, at: &BlockId, page: &[u8; 8192]) -> Result<(), NoMemory>
        requires { at.now.block < 2 ^ 32 - 1 }
        ensures put { OnOk result (self.new ≡ page_put at.now page.now self.old) }
        ensures same { OnErr result (self.new ≡ self.old) }
    {
        let before = length_in(&self.forks, &at.fork);
        put_in(&mut self.forks, at, page, self.alloc)?;
        self.total = recounted(self.total, before, length_in(&self.forks, &at.fork));
        Ok(())
    }
}

/// How many pages all forks have, where they had so many before one fork's number changed.
pub(crate) fn recounted(total: Option<u64>, before: usize, now: usize) -> Option<u64>
    ensures { IsRecounted total before now result }
{
    total?.checked_sub(before as u64)?.checked_add(now as u64)
}

/// How many pages a fork of a map has; a missing fork has none.
pub(crate) fn length_in(forks: &BTreeMap<ForkId, Vec<[u8; 8192]>>, fork: &ForkId) -> usize
    ensures { result ≡ length (pages_of (store_in forks.now) fork.now) }
{
    match forks.get(fork) {
        Some(pages) => pages.len(),
        None => 0,
    }
}

/// The page at a block. None exactly where there is no such block.
pub(crate) fn page_at(pages: &[[u8; 8192]], block: u32) -> Option<&[u8; 8192]>
    ensures { option_map (λ page. page.now) result ≡ slice_get pages.now block }
{
    pages.get(block as usize)
}

/// Makes an empty fork in a map, where there is none.
fn create_in(
    forks: &mut BTreeMap<ForkId, Vec<[u8; 8192]>>,
    fork: &ForkId,
    alloc: Global,
) -> Result<(), NoMemory>
    ensures made { OnOk result (store_in forks.new ≡ with_fork (store_in forks.old) fork.now) }
    ensures same { OnErr result (store_in forks.new ≡ store_in forks.old) }
{
    if forks.contains_key(fork) {
        return Ok(());
    }
    forks.insert(*fork, Vec::new(alloc))?;
    Ok(())
}

/// Leaves the first pages of a fork in a map alone, so many.
pub(crate) fn cut_in(forks: &mut BTreeMap<ForkId, Vec<[u8; 8192]>>, fork: &ForkId, count: usize)
    ensures { store_in forks.new ≡ with_cut (store_in forks.old) fork.now count }
{
    if let Some(pages) = forks.get_mut(fork) {
        pages.truncate(count);
    }
}

/// Puts a page at a block of a fork in a map. After a fault it is as before.
fn put_in(
    forks: &mut BTreeMap<ForkId, Vec<[u8; 8192]>>,
    at: &BlockId,
    page: &[u8; 8192],
    alloc: Global,
) -> Result<(), NoMemory>
    requires { at.now.block < 2 ^ 32 - 1 }
    ensures put { OnOk result (store_in forks.new ≡ page_put at.now page.now (store_in forks.old)) }
    ensures same { OnErr result (store_in forks.new ≡ store_in forks.old) }
{
    if let Some(pages) = forks.get_mut(&at.fork) {
        return put_block(pages, at.block, page);
    }
    let mut pages = Vec::new(alloc);
    put_block(&mut pages, at.block, page)?;
    forks.insert(at.fork, pages)?;
    Ok(())
}

/// Puts a page at a block; missing pages before it are zero pages. After a fault the pages are as
/// before.
fn put_block(pages: &mut Vec<[u8; 8192]>, block: u32, page: &[u8; 8192]) -> Result<(), NoMemory>
    requires { block < 2 ^ 32 - 1 }
    ensures put { OnOk result (pages.new.items ≡ with_block pages.old.items block page.now) }
    ensures same { OnErr result (pages.new.items ≡ pages.old.items) }
{
    let at = block as usize;
    if pages.len() <= at {
        pages.resize(at + 1, zero_page())?;
    }
    pages[at] = *page;
    Ok(())
}
