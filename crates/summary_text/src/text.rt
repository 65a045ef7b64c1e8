//! The lines of a summary.

ghost use Rattle.std.specs.Prelude.{◌≡◌, ◌++◌, string_bytes, IfOk, OnOk};
ghost use Rattle.summary_text.specs.Text.{kind_name, fork_front, limit_line, limit_lines, run_line, run_lines, fork_lines, summary_text};

use crate::runs::{BlockRun, block_runs};
use lsn_core::{ForkId, ForkKind, NoMemory, Text};
use std::alloc::Global;
use wal_summary::ForkSummary;

/// The lines of the forks of a summary, in their order: of each its limit, where it has one, and
/// its blocks, a line for each run of consecutive ones (pg_walsummary's output, which has the same
/// lines).
pub fn summary_text(alloc: Global, forks: &[ForkSummary]) -> Result<Text, NoMemory>
    ensures { IfOk result (λ text. text ≡ summary_text forks.now) }
{
    let mut lines = Vec::new(alloc);
    add_forks(alloc, forks, &mut lines)?;
    Ok(Text::from_vec(lines))
}

/// Adds the lines of forks.
fn add_forks(alloc: Global, forks: &[ForkSummary], lines: &mut Vec<u8>) -> Result<(), NoMemory>
    ensures { OnOk result (lines.new.items ≡ lines.old.items ++ summary_text forks.now) }
{
    let mut left = forks;
    while let Some((fork, behind)) = left.split_first() {
        add_fork(alloc, fork, lines)?;
        left = behind;
    }
    Ok(())
}

/// Adds the lines of a fork.
fn add_fork(alloc: Global, fork: &ForkSummary, lines: &mut Vec<u8>) -> Result<(), NoMemory>
    ensures { OnOk result (lines.new.items ≡ lines.old.items ++ fork_lines fork.now) }
{
    let front = fork_front(alloc, fork.fork)?;
    let runs = block_runs(alloc, fork.blocks.as_slice())?;
    add_limit(alloc, &front, fork.limit, lines)?;
    add_runs(alloc, &front, &runs, lines)
}

fn kind_name(kind: ForkKind) -> &'static str
    ensures { result.now ≡ kind_name kind }
{
    match kind {
        ForkKind::Main => "main",
        ForkKind::Init => "init",
    }
}

/// What each line of a fork begins with.
#[tactic(auto, unfolding(crate::specs::Text::fork_front))]
fn fork_front(alloc: Global, fork: ForkId) -> Result<String, NoMemory>
    ensures { IfOk result (λ front. string_bytes front ≡ fork_front fork) }
{
    let (db, rel) = (fork.rel.db(), fork.rel.rel());
    let kind = kind_name(fork.kind);
    Ok(format!(in alloc; "TS 1663, DB {db}, REL {rel}, FORK {kind}: ")?)
}

/// The line of a limit.
#[tactic(auto, unfolding(crate::specs::Text::limit_line))]
fn limit_line(alloc: Global, front: &str, limit: u32) -> Result<String, NoMemory>
    ensures { IfOk result (λ line. string_bytes line ≡ limit_line front.now limit) }
{
    Ok(format!(in alloc; "{front}limit {limit}\n")?)
}

/// Adds the line of a limit, where there is one.
fn add_limit(
    alloc: Global,
    front: &str,
    limit: Option<u32>,
    lines: &mut Vec<u8>,
) -> Result<(), NoMemory>
    ensures { OnOk result (lines.new.items ≡ lines.old.items ++ limit_lines front.now limit) }
{
    if let Some(limit) = limit {
        let line = limit_line(alloc, front, limit)?;
        lines.extend_from_slice(line.as_bytes())?;
    }
    Ok(())
}

/// The line of a run of blocks.
#[tactic(auto, unfolding(crate::specs::Text::run_line))]
fn run_line(alloc: Global, front: &str, run: &BlockRun) -> Result<String, NoMemory>
    ensures { IfOk result (λ line. string_bytes line ≡ run_line front.now run.now) }
{
    let (first, last) = (run.first, run.last);
    if first == last {
        return Ok(format!(in alloc; "{front}block {first}\n")?);
    }
    Ok(format!(in alloc; "{front}blocks {first}..{last}\n")?)
}

/// Adds the lines of runs of blocks.
fn add_runs(
    alloc: Global,
    front: &str,
    runs: &[BlockRun],
    lines: &mut Vec<u8>,
) -> Result<(), NoMemory>
    ensures { OnOk result (lines.new.items ≡ lines.old.items ++ run_lines front.now runs.now) }
{
    let mut left = runs;
    while let Some((run, behind)) = left.split_first() {
        let line = run_line(alloc, front, run)?;
        lines.extend_from_slice(line.as_bytes())?;
        left = behind;
    }
    Ok(())
}
