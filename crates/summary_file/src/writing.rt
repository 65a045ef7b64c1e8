//! Writing a summary's file.

ghost use Rattle.std.specs.Prelude.{◌≡◌, ◌<◌, ◌^◌, ◌++◌, length, map, OnOk, IfOk};
ghost use Rattle.std.specs.List.{flat_map, AllByRecursion};
ghost use Rattle.std.specs.Int.{w32, to_le_bytes};
ghost use Rattle.summary_file.specs.Numbers.{fork_head, fork_bytes, file_head};
ghost use Rattle.summary_file.specs.File.{fork_number, limit_number, fork_numbers, summary_numbers, summary_bytes, IsWritable, ForkHasRoom, HasRoom};
ghost use Rattle.summary_file.specs.Inside.{FrontHasRoom};

use crate::numbers::{FILE_MAGIC, NO_LIMIT};
use crate::summary::sum_of;
use lsn_core::{ForkKind, NoMemory};
use std::alloc::Global;
use wal_summary::{ForkSummary, Summary};

/// The number that stands for a kind of fork (PostgreSQL's ForkNumber).
fn fork_number(kind: ForkKind) -> u32
    ensures { result ≡ fork_number kind }
{
    match kind {
        ForkKind::Main => 0,
        ForkKind::Init => 3,
    }
}

/// The number that stands for a limit.
fn limit_number(limit: Option<u32>) -> u32
    ensures { result ≡ limit_number limit }
{
    limit.unwrap_or(NO_LIMIT)
}

/// Puts numbers of four bytes each behind what is written.
fn put_blocks(out: &mut Vec<u8>, blocks: &[u32]) -> Result<(), NoMemory>
    ensures { OnOk result (out.new.items ≡ out.old.items
        ++ flat_map (to_le_bytes w32) blocks.now) }
{
    for block in blocks {
        out.extend_from_slice(&block.to_le_bytes())?;
    }
    Ok(())
}

/// What stands of a fork before its blocks.
#[tactic(auto, unfolding(crate::specs::Numbers::fork_head))]
fn fork_front(alloc: Global, fork: &ForkSummary) -> Result<Vec<u8>, NoMemory>
    requires { length fork.now.blocks < 2 ^ 32 }
    ensures head { IfOk result (λ bytes. bytes.items ≡ fork_head (fork_numbers fork.now)) }
    ensures room { OnOk result (ForkHasRoom fork.now) }
{
    let count = fork.blocks.as_slice().len() as u32;
    let mut out = Vec::new(alloc);
    out.extend_from_slice(&fork.fork.rel.db().to_le_bytes())?;
    out.extend_from_slice(&fork.fork.rel.rel().to_le_bytes())?;
    out.extend_from_slice(&fork_number(fork.fork.kind).to_le_bytes())?;
    out.extend_from_slice(&limit_number(fork.limit).to_le_bytes())?;
    out.extend_from_slice(&count.to_le_bytes())?;
    Ok(out)
}

/// Puts a fork behind what is written.
fn put_fork(alloc: Global, out: &mut Vec<u8>, fork: &ForkSummary) -> Result<(), NoMemory>
    requires { length fork.now.blocks < 2 ^ 32 }
    ensures put { OnOk result
        (out.new.items ≡ out.old.items ++ fork_bytes (fork_numbers fork.now)) }
    ensures room { OnOk result (ForkHasRoom fork.now) }
{
    let front = fork_front(alloc, fork)?;
    out.extend_from_slice(&front)?;
    put_blocks(out, fork.blocks.as_slice())
}

/// Puts forks behind what is written.
fn put_forks(alloc: Global, out: &mut Vec<u8>, forks: &[ForkSummary]) -> Result<(), NoMemory>
    requires { AllByRecursion (λ f. length f.blocks < 2 ^ 32) forks.now }
    ensures put { OnOk result (out.new.items ≡ out.old.items
        ++ flat_map fork_bytes (map fork_numbers forks.now)) }
    ensures room { OnOk result (AllByRecursion ForkHasRoom forks.now) }
{
    let mut left = forks;
    while let Some((fork, behind)) = left.split_first() {
        put_fork(alloc, out, fork)?;
        left = behind;
    }
    Ok(())
}

/// What stands before the forks.
#[tactic(auto, unfolding(crate::specs::Numbers::file_head))]
fn file_front(alloc: Global, summary: &Summary) -> Result<Vec<u8>, NoMemory>
    ensures head { IfOk result (λ bytes. bytes.items ≡ file_head (summary_numbers summary.now)) }
    ensures room { OnOk result (FrontHasRoom summary.now) }
{
    let count = summary.forks.as_slice().len() as u64;
    let mut out = Vec::new(alloc);
    out.extend_from_slice(&FILE_MAGIC.to_le_bytes())?;
    out.extend_from_slice(&summary.start.0.to_le_bytes())?;
    out.extend_from_slice(&summary.end.0.to_le_bytes())?;
    out.extend_from_slice(&summary.made.to_le_bytes())?;
    out.extend_from_slice(&count.to_le_bytes())?;
    Ok(out)
}

/// The bytes of a summary's file (profile). The summary is one that a file can hold: its range
/// isn't empty, its forks and their blocks are in order, none of its forks is without limit and
/// blocks, limits are below 4,294,967,295 and blocks below 32,768.
pub fn encode_summary(alloc: Global, summary: &Summary) -> Result<Vec<u8>, NoMemory>
    requires { IsWritable summary.now }
    ensures bytes { IfOk result (λ bytes. bytes.items ≡ summary_bytes summary.now) }
    ensures room { OnOk result (HasRoom summary.now) }
{
    let mut out = file_front(alloc, summary)?;
    put_forks(alloc, &mut out, summary.forks.as_slice())?;
    let crc = sum_of(&out);
    out.extend_from_slice(&crc.to_le_bytes())?;
    Ok(out)
}
