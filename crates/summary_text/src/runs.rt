//! Runs of consecutive block numbers.

ghost use Rattle.std.specs.Prelude.{◌≡◌, IfOk, OnOk};
ghost use Rattle.summary_text.specs.Runs.{single, runs_of};
ghost use Rattle.summary_text.specs.Inside.{is_next, with_block};

use lsn_core::NoMemory;
use std::alloc::Global;

/// Consecutive block numbers, from the first to the last one.
#[derive(Clone, Copy, Debug, PartialEq, Eq)]
pub struct BlockRun {
    pub first: u32,
    pub last: u32,
}

/// The longest runs of rising block numbers, in order.
pub fn block_runs(alloc: Global, blocks: &[u32]) -> Result<Vec<BlockRun>, NoMemory>
    ensures { IfOk result (λ runs. runs.items ≡ runs_of blocks.now) }
{
    let mut runs = Vec::new(alloc);
    let mut left = blocks;
    while let Some((block, behind)) = left.split_first() {
        add_block(&mut runs, *block)?;
        left = behind;
    }
    Ok(runs)
}

/// Adds a block number behind all others.
fn add_block(runs: &mut Vec<BlockRun>, block: u32) -> Result<(), NoMemory>
    ensures { OnOk result (runs.new.items ≡ with_block runs.old.items block) }
{
    let Some(run) = runs.pop() else {
        runs.push(single(block))?;
        return Ok(());
    };
    if is_next(&run, block) {
        runs.push(BlockRun {
            first: run.first,
            last: block,
        })?;
        return Ok(());
    }
    runs.push(run)?;
    runs.push(single(block))?;
    Ok(())
}

/// The run of one block number.
fn single(block: u32) -> BlockRun
    ensures { result ≡ single block }
{
    BlockRun {
        first: block,
        last: block,
    }
}

/// Whether a block number stands just behind a run.
fn is_next(run: &BlockRun, block: u32) -> bool
    ensures { result ≡ is_next run.now block }
{
    u64::from(run.last) + 1 == u64::from(block)
}
