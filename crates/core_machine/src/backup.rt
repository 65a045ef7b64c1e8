//! A backup under way.

ghost use Rattle.std.specs.Prelude.{◌≡◌, ◌≤◌, [], map, IfOk, OnOk, Some};
ghost use Rattle.std.specs.FinMap.{empty};
ghost use Rattle.std.specs.List.{list_all};
ghost use Rattle.std.specs.Option.{option_map};
ghost use Rattle.history.specs.Whole.{is_named};
ghost use Rattle.store_core.specs.Increments.{raised, table_between};
ghost use Rattle.store_core.specs.Steps.{new_backup, is_listed, is_within, with_listing, with_copied, with_forks, unread, lengths_of, fork_blocks, blocks_of, sends, is_settled, is_complete, finished_copy, finished_of};
ghost use Rattle.core_machine.specs.Inside.{prior_in, underway_in, lengths_in};
ghost use Rattle.store_core.specs.InMemory.{published_in};
ghost use Rattle.core_machine.specs.Shown.{sent_in, finished_in};

use crate::over::{FinishedBackup, SentBlocks, is_among};
use history::PageMap;
use lsn_core::{BlockId, ForkId, ForkLen, Lsn, NoMemory};
use std::alloc::Global;
use store_core::Lengths;
use store_core::increment::{PriorBackup, plan_sends};
use store_core::stores::{add_unread, blocks_in, copied, number, put_page, raise_fork};
use wal_summary::Summary;

/// A backup under way: its start, the partitions that are listed, the copy so far, the blocks that
/// are copied, and, of an incremental one, the backup that it is made over.
#[derive(Drop)]
pub(crate) struct Underway {
    pub start: Lsn,
    pub listed: Vec<u32>,
    pub copy: PageMap,
    pub copied: Vec<BlockId>,
    pub prior: Option<PriorBackup>,
}

impl Underway {
    /// A backup that begins at a redo point.
    pub fn new(alloc: Global, start: Lsn, prior: Option<PriorBackup>) -> Underway
        ensures { underway_in result ≡ new_backup start.0 (option_map prior_in prior) }
    {
        Underway {
            start,
            listed: Vec::new(alloc),
            copy: PageMap::new(alloc),
            copied: Vec::new(alloc),
            prior,
        }
    }

    /// Whether a partition is listed.
    pub fn is_listed(&self, part: u32) -> bool
        ensures { result ≡ is_listed (underway_in self.now) part }
    {
        self.listed.iter().any(|other| *other == part)
    }

    /// Whether a block is below the listed length of its fork.
    pub fn is_within(&self, at: &BlockId) -> bool
        ensures { result ≡ is_within (underway_in self.now) at.now }
    {
        match self.copy.blocks(&at.fork) {
            Some(count) => (at.block as usize) < count,
            None => false,
        }
    }

    /// Whether a block is copied.
    pub fn is_copied(&self, at: &BlockId) -> bool
        ensures { result ≡ is_named at.now self.now.copied.items }
    {
        is_among(at, &self.copied)
    }

    /// Lists the forks on a partition's disk.
    pub fn list(&mut self, alloc: Global, part: u32, disk: &PageMap) -> Result<Lengths, NoMemory>
        ensures { IfOk result (λ lengths. (lengths ≡ lengths_of disk.now)
            × (underway_in self.new ≡ with_listing (underway_in self.old) part disk.now)) }
    {
        let forks = disk.forks(alloc)?;
        add_forks(&mut self.copy, disk, &forks)?;
        self.listed.insert(0, part)?;
        lengths(alloc, disk, &forks)
    }

    /// Copies a block: the page that the disk has there, or zeros where it has none.
    pub fn copy_block(&mut self, at: &BlockId, page: &[u8; 8192]) -> Result<(), NoMemory>
        ensures { OnOk result (underway_in self.new
            ≡ with_copied (underway_in self.old) at.now (Some page.now)) }
    {
        put_page(&mut self.copy, *at, page)?;
        self.copied.insert(0, *at)?;
        Ok(())
    }

    /// Whether the backup sends a block: a full one each, an incremental one those that the plan of
    /// their file sends.
    pub fn sends(
        &self,
        alloc: Global,
        sums: &[Summary],
        relseg: u32,
        at: &BlockId,
    ) -> Result<bool, NoMemory>
        requires { 1 ≤ relseg }
        ensures { IfOk result (λ sent. sent ≡ sends relseg (map published_in sums.now)
            (underway_in self.now) (underway_in self.now).prior at.now) }
    {
        match &self.prior {
            None => Ok(true),
            Some(prior) => {
                let seg = at.block / relseg;
                let plan = prior.file_plan(
                    alloc, sums, relseg, self.start, &self.copy, &at.fork, seg,
                )?;
                Ok(plan_sends(&plan, at.block % relseg))
            }
        }
    }

    /// Whether a block is copied, or isn't sent.
    fn is_settled(
        &self,
        alloc: Global,
        sums: &[Summary],
        relseg: u32,
        at: &BlockId,
    ) -> Result<bool, NoMemory>
        requires { 1 ≤ relseg }
        ensures { IfOk result (λ settled. settled
            ≡ is_settled relseg (map published_in sums.now) (underway_in self.now) at.now) }
    {
        if self.is_copied(at) {
            return Ok(true);
        }
        Ok(!self.sends(alloc, sums, relseg, at)?)
    }

    /// Whether all partitions are listed, and all listed blocks that are sent are copied.
    pub fn is_complete(
        &self,
        alloc: Global,
        sums: &[Summary],
        relseg: u32,
    ) -> Result<bool, NoMemory>
        requires { 1 ≤ relseg }
        ensures { IfOk result (λ all. all
            ≡ is_complete relseg (map published_in sums.now) (underway_in self.now)) }
    {
        let all = self.is_listed(0) && self.is_listed(1) && self.is_listed(2) && self.is_listed(3);
        if !all {
            return Ok(false);
        }
        self.are_settled(alloc, sums, relseg)
    }

    /// Whether all blocks of the copy are copied, or aren't sent.
    fn are_settled(&self, alloc: Global, sums: &[Summary], relseg: u32) -> Result<bool, NoMemory>
        requires { 1 ≤ relseg }
        ensures { IfOk result (λ all. all
            ≡ list_all (is_settled relseg (map published_in sums.now) (underway_in self.now))
            (blocks_of self.now.copy)) }
    {
        let forks = self.copy.forks(alloc)?;
        for i in 0..forks.len() {
            if !self.is_fork_settled(alloc, sums, relseg, &forks[i])? {
                return Ok(false);
            }
        }
        Ok(true)
    }

    /// Whether all blocks of a fork of the copy are copied, or aren't sent.
    fn is_fork_settled(
        &self,
        alloc: Global,
        sums: &[Summary],
        relseg: u32,
        fork: &ForkId,
    ) -> Result<bool, NoMemory>
        requires { 1 ≤ relseg }
        ensures { IfOk result (λ all. all
            ≡ list_all (is_settled relseg (map published_in sums.now) (underway_in self.now))
            (fork_blocks self.now.copy fork.now)) }
    {
        let count = blocks_in(&self.copy, fork);
        for block in 0..count {
            let at = BlockId {
                fork: *fork,
                block: number(block)?,
            };
            if !self.is_settled(alloc, sums, relseg, &at)? {
                return Ok(false);
            }
        }
        Ok(true)
    }

    /// The finished backup that ends at a place.
    pub fn finish(
        self,
        alloc: Global,
        sums: &[Summary],
        relseg: u32,
        end: Lsn,
    ) -> Result<FinishedBackup, NoMemory>
        requires { 1 ≤ relseg }
        ensures { IfOk result (λ backup. finished_in backup
            ≡ finished_of relseg (map published_in sums.now) (underway_in self) end.0) }
    {
        let copy = self.finished_copy(alloc, sums, relseg)?;
        let start = self.start;
        let sent = sent_of(self.prior, self.copied);
        Ok(FinishedBackup {
            copy,
            start,
            end,
            sent,
        })
    }

    /// The copy of the finished backup.
    fn finished_copy(
        &self,
        alloc: Global,
        sums: &[Summary],
        relseg: u32,
    ) -> Result<PageMap, NoMemory>
        requires { 1 ≤ relseg }
        ensures { IfOk result (λ copy. copy ≡ finished_copy relseg (map published_in sums.now)
            (underway_in self.now) (underway_in self.now).prior) }
    {
        match &self.prior {
            None => copied(alloc, &self.copy),
            Some(prior) => self.raised(alloc, sums, relseg, prior),
        }
    }

    /// The copy with each fork as long as its files are rebuilt.
    fn raised(
        &self,
        alloc: Global,
        sums: &[Summary],
        relseg: u32,
        prior: &PriorBackup,
    ) -> Result<PageMap, NoMemory>
        requires { 1 ≤ relseg }
        ensures { IfOk result (λ copy. copy ≡ raised relseg
            (table_between (map published_in sums.now) prior.now.start.0 self.now.start.0)
            prior.now.copy self.now.copy) }
    {
        let mut copy = PageMap::new(alloc);
        let forks = self.copy.forks(alloc)?;
        for i in 0..forks.len() {
            let fork = &forks[i];
            let count = prior.raised_length(alloc, sums, relseg, self.start, &self.copy, fork)?;
            raise_fork(&mut copy, &self.copy, fork, count)?;
        }
        Ok(copy)
    }
}

/// What a backup that sent these blocks tells, where it is an incremental one.
fn sent_of(prior: Option<PriorBackup>, blocks: Vec<BlockId>) -> Option<SentBlocks>
    ensures { option_map sent_in result
        ≡ option_map (λ p. record { prior = p.start.0; sent = blocks.items }) prior }
{
    match prior {
        None => None,
        Some(prior) => Some(SentBlocks {
            prior: prior.start,
            blocks,
        }),
    }
}

/// Puts forks of a disk into a copy, with zeros in place of their pages.
fn add_forks(copy: &mut PageMap, disk: &PageMap, forks: &[ForkId]) -> Result<(), NoMemory>
    ensures { OnOk result (copy.new ≡ with_forks unread disk.now copy.old forks.now) }
{
    for i in 0..forks.len() {
        add_unread(copy, disk, &forks[i])?;
    }
    Ok(())
}

/// Forks of a disk with their lengths.
fn lengths(alloc: Global, disk: &PageMap, forks: &[ForkId]) -> Result<Lengths, NoMemory>
    ensures { IfOk result (λ lengths. lengths ≡ lengths_in disk.now forks.now) }
{
    let mut list = Vec::new(alloc);
    for i in 0..forks.len() {
        let blocks = number(blocks_in(disk, &forks[i]))?;
        list.push(ForkLen {
            fork: forks[i],
            blocks,
        })?;
    }
    Ok(Lengths::from_vec(list))
}
