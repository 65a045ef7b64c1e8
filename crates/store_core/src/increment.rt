//! How an incremental backup sends the files of a fork.

ghost use Rattle.std.specs.Prelude.{◌≡◌, ◌*◌, ◌==◌, ◌≤◌, map, IfOk};
ghost use Rattle.std.specs.List.{list_any};
ghost use Rattle.std.specs.List.Sorted.{IsStrictlyIncreasing};
ghost use Rattle.store_core.specs.Increments.{table_between, listed_blocks, has_file, file_plan, plan_sends, rebuilt_count, raised_length};
ghost use Rattle.store_core.specs.InMemory.{published_in};

use crate::stores::{blocks_in, number};
use crate::summaries::{is_listed_between, limit_between};
use history::PageMap;
use incr_file::{FilePlan, plan_segment};
use lsn_core::{ForkId, Lsn, NoMemory};
use std::alloc::Global;
use wal_summary::Summary;

/// A backup that an incremental one is made over: where it starts, and its copy.
#[derive(Drop)]
pub struct PriorBackup {
    pub start: Lsn,
    pub copy: PageMap,
}

/// The blocks of a fork of so many that summaries list.
fn listed_blocks(
    alloc: Global,
    sums: &[Summary],
    from: Lsn,
    to: Lsn,
    fork: &ForkId,
    size: u32,
) -> Result<Vec<u32>, NoMemory>
    ensures list { IfOk result (λ list. list.items ≡ listed_blocks
        (table_between (map published_in sums.now) from.0 to.0) fork.now size) }
    ensures rising { IfOk result (λ list. IsStrictlyIncreasing list.items) }
{
    let mut list = Vec::new(alloc);
    for block in 0..size {
        if is_listed_between(sums, from, to, fork, block) {
            list.push(block)?;
        }
    }
    Ok(list)
}

/// Whether a fork of so many blocks has a segment file of this number; one that isn't there has
/// none.
fn has_file(relseg: u32, seg: u32, size: Option<usize>) -> bool
    ensures { result ≡ has_file relseg seg size }
{
    match size {
        None => false,
        Some(size) => seg == 0 || u64::from(seg) * u64::from(relseg) < size as u64,
    }
}

/// A number that fits, as those of all blocks do that memory holds.
fn first_block(seg: u32, relseg: u32) -> Result<u32, NoMemory>
    ensures { IfOk result (λ n. n ≡ seg * relseg) }
{
    number((u64::from(seg) * u64::from(relseg)) as usize)
}

impl PriorBackup {
    /// The plan of a segment file of a listed fork, in a backup that starts at a place.
    pub fn file_plan(
        &self,
        alloc: Global,
        sums: &[Summary],
        relseg: u32,
        start: Lsn,
        copy: &PageMap,
        fork: &ForkId,
        seg: u32,
    ) -> Result<FilePlan, NoMemory>
        ensures { IfOk result (λ plan. plan ≡ file_plan relseg
            (table_between (map published_in sums.now) self.now.start.0 start.0)
            self.now.copy copy.now fork.now seg) }
    {
        let size = number(blocks_in(copy, fork))?;
        let first = first_block(seg, relseg)?;
        let planned = relseg.min(size.saturating_sub(first));
        let limit = limit_between(sums, self.start, start, fork);
        let blocks = listed_blocks(alloc, sums, self.start, start, fork, size)?;
        let known = has_file(relseg, seg, self.copy.blocks(fork));
        plan_segment(alloc, first, planned, relseg, limit, &blocks, known)
    }

    /// How long a listed fork is when its files are rebuilt, in a backup that starts at a place.
    pub fn raised_length(
        &self,
        alloc: Global,
        sums: &[Summary],
        relseg: u32,
        start: Lsn,
        copy: &PageMap,
        fork: &ForkId,
    ) -> Result<u32, NoMemory>
        requires { 1 ≤ relseg }
        ensures { IfOk result (λ length. length ≡ raised_length relseg
            (table_between (map published_in sums.now) self.now.start.0 start.0)
            self.now.copy copy.now fork.now) }
    {
        let size = number(blocks_in(copy, fork))?;
        let seg = size.saturating_sub(1) / relseg;
        let plan = self.file_plan(alloc, sums, relseg, start, copy, fork, seg)?;
        let first = first_block(seg, relseg)?;
        let count = rebuilt_count(relseg.min(size.saturating_sub(first)), &plan);
        number((u64::from(first) + u64::from(count)) as usize)
    }
}

/// Whether a plan sends a block of its file.
pub fn plan_sends(plan: &FilePlan, block: u32) -> bool
    ensures { result ≡ plan_sends plan.now block }
{
    match plan {
        FilePlan::Whole => true,
        FilePlan::Incr(head) => has_block(head.blocks.as_slice(), block),
    }
}

/// Whether a list of blocks has a block.
fn has_block(blocks: &[u32], block: u32) -> bool
    ensures { result ≡ list_any (λ b. b == block) blocks.now }
{
    blocks.iter().any(|other| *other == block)
}

/// How many blocks a file has when it is rebuilt, of which so many are planned.
fn rebuilt_count(count: u32, plan: &FilePlan) -> u32
    ensures { result ≡ rebuilt_count count plan.now }
{
    match plan {
        FilePlan::Whole => count,
        FilePlan::Incr(head) => head.truncation,
    }
}
