//! The plan by which a segment file of a fork is sent.

ghost use Rattle.std.specs.Prelude.{◌≡◌, ◌≤◌, ◌+◌, ◌-◌, ◌&&◌, nat_le, nat_lt, map, length, IfOk};
ghost use Rattle.std.specs.List.{filter, All};
ghost use Rattle.std.specs.List.Sorted.{IsStrictlyIncreasing};
ghost use Rattle.lsn_core.specs.Segment.{IsRelseg};
ghost use Rattle.incr_file.specs.Plan.{is_limited_at, is_sent_whole, truncation_length, plan_at, IsPlan};

use crate::head::{HeadBlocks, IncrHead};
use lsn_core::NoMemory;
use std::alloc::Global;

/// How a segment file of a fork is sent by an incremental backup.
#[derive(Debug, Drop)]
pub enum FilePlan {
    /// With all its blocks, as a plain file.
    Whole,
    /// As an incremental file with this head.
    Incr(IncrHead),
}

/// The first of rising blocks, up to a block.
fn blocks_below(blocks: &[u32], end: u64) -> &[u32]
    requires { IsStrictlyIncreasing blocks.now }
    ensures { result.now ≡ filter (λ b. nat_lt b end) blocks.now }
{
    &blocks[..blocks.partition_point(|block| u64::from(*block) < end)]
}

/// The last of rising blocks, from a block on.
fn blocks_from(blocks: &[u32], first: u32) -> &[u32]
    requires { IsStrictlyIncreasing blocks.now }
    ensures from { result.now ≡ filter (λ b. nat_le first b) blocks.now }
    ensures rising { IsStrictlyIncreasing result.now }
{
    &blocks[blocks.partition_point(|block| *block < first)..]
}

/// Those of rising blocks that are planned of a segment with this first block.
fn listed_blocks(blocks: &[u32], first: u32, planned: u32) -> &[u32]
    requires { IsStrictlyIncreasing blocks.now }
    ensures listed { result.now
        ≡ filter (λ b. nat_le first b && nat_lt b (first + planned)) blocks.now }
    ensures rising { IsStrictlyIncreasing result.now }
    ensures behind { All (λ b. first ≤ b) result.now }
    ensures most { length result.now ≤ planned }
{
    blocks_below(
        blocks_from(blocks, first),
        u64::from(first) + u64::from(planned),
    )
}

/// Whether a fork has a limit at a block or before it.
fn is_limited_at(block: u32, limit: Option<u32>) -> bool
    ensures { result ≡ is_limited_at block limit }
{
    limit.is_some_and(|limit| limit <= block)
}

/// Whether a file of so many planned blocks, so many of them listed, is sent whole.
fn is_sent_whole(first: u32, planned: u32, limit: Option<u32>, listed: u64, known: bool) -> bool
    requires { listed ≤ planned }
    ensures { result ≡ is_sent_whole first planned limit listed known }
{
    planned == 0 || !known || is_limited_at(first, limit) || 10 * listed > 9 * u64::from(planned)
}

/// The truncation length of a file of so many planned blocks.
fn truncation_length(relseg: u32, first: u32, planned: u32, limit: Option<u32>) -> u32
    ensures { result ≡ truncation_length relseg first planned limit }
{
    match limit {
        None => planned,
        Some(limit) => planned.max(relseg.min(limit.saturating_sub(first))),
    }
}

/// Blocks counted from a first one, at or past which they stand.
fn relative_blocks(alloc: Global, blocks: &[u32], first: u32) -> Result<HeadBlocks, NoMemory>
    requires rising { IsStrictlyIncreasing blocks.now }
    requires behind { All (λ b. first ≤ b) blocks.now }
    ensures { IfOk result (λ list. list ≡ map (λ b. b - first) blocks.now) }
{
    let mut relative = Vec::with_capacity(alloc, blocks.len())?;
    for block in blocks {
        relative.push(*block - first)?;
    }
    Ok(HeadBlocks::from_rising(relative))
}

/// The plan of the segment file with this first block and so many planned blocks, at `relseg`
/// blocks a file, by the limit and the blocks, rising, that a summary lists of the fork, and by
/// whether the prior backup lists the file in either form (PostgreSQL manual, pg_basebackup,
/// --incremental; the rules are our profile). The head of a plan may be written where no more
/// blocks are planned than a file has.
pub fn plan_segment(
    alloc: Global,
    first: u32,
    planned: u32,
    relseg: u32,
    limit: Option<u32>,
    blocks: &[u32],
    known: bool,
) -> Result<FilePlan, NoMemory>
    requires { IsStrictlyIncreasing blocks.now }
    ensures plan { IfOk result (λ plan.
        plan ≡ plan_at relseg first planned limit blocks.now known) }
    ensures head { IsRelseg relseg → planned ≤ relseg → IfOk result (IsPlan planned) }
{
    let listed = listed_blocks(blocks, first, planned);
    if is_sent_whole(first, planned, limit, listed.len() as u64, known) {
        return Ok(FilePlan::Whole);
    }
    let truncation = truncation_length(relseg, first, planned, limit);
    let blocks = relative_blocks(alloc, listed, first)?;
    Ok(FilePlan::Incr(IncrHead { truncation, blocks }))
}
