//! What the numbers of forks mean.

ghost use Rattle.std.specs.Prelude.{◌≡◌, ◌<◌, ◌↔◌, IsTrue, IfOk, IfSome, IfNone};
ghost use Rattle.std.specs.List.{list_all, IsAllAdjacentAnswer};
ghost use Rattle.std.specs.List.Sorted.{IsStrictlySortedBy};
ghost use Rattle.std.specs.Ordering.{nat_cmp, is_lt};
ghost use Rattle.std.specs.Option.{option_map};
ghost use Rattle.lsn_core.specs.Sizes.{most_blocks};
ghost use Rattle.lsn_core.specs.Store.{fork_cmp};
ghost use Rattle.wal_summary.specs.Summary.{is_told};
ghost use Rattle.summary_file.specs.File.{fork_number, limit_number, no_limit};
ghost use Rattle.summary_file.specs.Inside.{IsNoKind, AreBlocks, IsForkOf, IsNoForkOf, ForksAnswer};

use crate::numbers::{ForkNumbers, NO_LIMIT};
use lsn_core::{ForkId, ForkKind, MOST_BLOCKS, NoMemory, Rel};
use std::alloc::Global;
use wal_summary::ForkSummary;

/// The kind of fork that a number stands for (PostgreSQL's ForkNumber: 0 is the main fork, 3 that
/// of an unlogged relation's empty state).
fn kind_of(number: u32) -> Option<ForkKind>
    ensures found { IfSome result (λ kind. number ≡ fork_number kind) }
    ensures none { IfNone result (IsNoKind number) }
{
    match number {
        0 => Some(ForkKind::Main),
        3 => Some(ForkKind::Init),
        _ => None,
    }
}

/// The limit that a number stands for.
fn limit_of(number: u32) -> Option<u32>
    ensures number { number ≡ limit_number result }
    ensures some { IfSome result (λ count. count < no_limit) }
{
    if number == NO_LIMIT {
        None
    } else {
        Some(number)
    }
}

/// Whether each block is below the next one.
fn are_rising(blocks: &[u32]) -> bool
    ensures { IsTrue result ↔ IsStrictlySortedBy nat_cmp blocks.now }
{
    blocks.is_sorted_by(|a, b| a < b)
}

/// Whether a file may list these blocks.
fn are_blocks(blocks: &[u32]) -> bool
    ensures { IsTrue result ↔ AreBlocks blocks.now }
{
    are_rising(blocks) && blocks.iter().all(|block| *block < MOST_BLOCKS)
}

/// Whether a fork has a limit or a block.
fn is_told(limit: Option<u32>, blocks: &[u32]) -> bool
    ensures { result ≡ is_told limit blocks.now }
{
    limit.is_some() || !blocks.is_empty()
}

/// The fork of a summary that has these numbers. None exactly where there is none.
fn fork_in(numbers: ForkNumbers) -> Option<ForkSummary>
    ensures found { IfSome result (IsForkOf numbers) }
    ensures none { IfNone result (IsNoForkOf numbers) }
{
    let rel = Rel::new(numbers.db, numbers.rel)?;
    let kind = kind_of(numbers.kind)?;
    let limit = limit_of(numbers.limit);
    let blocks = numbers.blocks;
    if !are_blocks(blocks.as_slice()) || !is_told(limit, blocks.as_slice()) {
        return None;
    }
    Some(ForkSummary {
        fork: ForkId { rel, kind },
        limit,
        blocks,
    })
}

/// The forks that have these numbers. None exactly where one of them has no such fork.
pub(crate) fn forks_in(
    alloc: Global,
    numbers: Vec<ForkNumbers>,
) -> Result<Option<Vec<ForkSummary>>, NoMemory>
    ensures { IfOk result (λ found.
        ForksAnswer numbers.items (option_map (λ forks. forks.items) found)) }
{
    let mut forks = Vec::new(alloc);
    for fork in numbers {
        let Some(fork) = fork_in(fork) else {
            return Ok(None);
        };
        forks.push(fork)?;
    }
    Ok(Some(forks))
}

/// Whether a fork is below another one, by database, relation and kind.
fn is_below(a: &ForkSummary, b: &ForkSummary) -> bool
    ensures { result ≡ is_lt (fork_cmp a.now.fork b.now.fork) }
{
    a.fork.cmp(&b.fork).is_lt()
}

/// Whether each fork is below the next one.
pub(crate) fn are_in_order(forks: &[ForkSummary]) -> bool
    ensures { IsAllAdjacentAnswer (λ x y b. b ≡ is_lt (fork_cmp x.fork y.fork)) forks.now result }
{
    forks.is_sorted_by(|a, b| is_below(a, b))
}
