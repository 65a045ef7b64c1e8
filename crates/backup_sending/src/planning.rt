//! How the segment files of an incremental backup are sent.

ghost use Rattle.std.specs.Prelude.{◌≡◌, ◌<◌, None, IfOk};
ghost use Rattle.std.specs.List.{find};
ghost use Rattle.std.specs.List.Sorted.{IsStrictlyIncreasing};
ghost use Rattle.std.specs.Option.{option_map};
ghost use Rattle.lsn_core.specs.Segment.{IsRelseg};
ghost use Rattle.lsn_core.specs.Store.{segment_count};
ghost use Rattle.history.specs.Apply.{is_same_fork};
ghost use Rattle.wal_summary.specs.Summary.{AreSorted, limit_at};
ghost use Rattle.incr_file.specs.Plan.{IsPlan};
ghost use Rattle.backup_sending.specs.Sent.{blocks_at, has_path, is_known, segment_plan};

use crate::basis::Basis;
use crate::forks::segment_path;
use history::is_same_fork;
use incr_file::{FilePlan, plan_segment};
use lsn_core::{ForkId, ForkLen, NoMemory};
use manifest::FileRow;
use std::alloc::Global;
use wal_summary::ForkSummary;

/// What a summary says of a fork, if anything.
fn summary_of<'a>(forks: &'a [ForkSummary], fork: &ForkId) -> Option<&'a ForkSummary>
    ensures { option_map (λ s. s.now) result
        ≡ find (λ s. is_same_fork fork.now s.fork) forks.now }
{
    forks.iter().find(|one| is_same_fork(fork, &one.fork))
}

/// The limit that a summary has of a fork.
fn limit_in(forks: &[ForkSummary], fork: &ForkId) -> Option<u32>
    ensures { result ≡ limit_at fork.now forks.now }
{
    match summary_of(forks, fork) {
        Some(found) => found.limit,
        None => None,
    }
}

/// The blocks that a summary lists of a fork, which rise.
fn blocks_in<'a>(forks: &'a [ForkSummary], fork: &ForkId) -> &'a [u32]
    requires { AreSorted forks.now }
    ensures blocks { result.now ≡ blocks_at fork.now forks.now }
    ensures rising { IsStrictlyIncreasing result.now }
{
    match summary_of(forks, fork) {
        Some(found) => found.blocks.as_slice(),
        None => &[],
    }
}

/// Whether rows list a path.
fn has_path(rows: &[FileRow], path: &[u8]) -> bool
    ensures { result ≡ has_path rows.now path.now }
{
    rows.iter().any(|row| row.path.as_bytes() == path)
}

/// Whether rows list a segment file of a fork, in one form or the other.
fn is_known(alloc: Global, rows: &[FileRow], fork: &ForkId, seg: u32) -> Result<bool, NoMemory>
    ensures { IfOk result (λ known. known ≡ is_known rows.now fork.now seg) }
{
    let plain = segment_path(alloc, fork, seg, false)?;
    let part = segment_path(alloc, fork, seg, true)?;
    Ok(has_path(rows, plain.as_bytes()) || has_path(rows, part.as_bytes()))
}

/// How a segment file of a fork is sent, which begins at this block of it and has so many planned
/// ones.
pub(crate) fn file_plan(
    alloc: Global,
    basis: &Basis,
    fork: &ForkLen,
    seg: u32,
) -> Result<FilePlan, NoMemory>
    requires relseg { IsRelseg basis.now.relseg }
    requires seg { seg < segment_count basis.now.relseg fork.now.blocks }
    requires sorted { AreSorted basis.now.summary.forks }
    ensures plan { IfOk result (λ plan. plan ≡ (segment_plan basis.now fork.now seg).plan) }
    ensures head { IfOk result (IsPlan (segment_plan basis.now fork.now seg).count) }
{
    let relseg = basis.relseg();
    let blocks = fork.blocks;
    let first = seg * relseg;
    let planned = relseg.min(blocks - first);
    let limit = limit_in(basis.forks(), &fork.fork);
    let listed = blocks_in(basis.forks(), &fork.fork);
    let known = is_known(alloc, basis.rows(), &fork.fork, seg)?;
    plan_segment(alloc, first, planned, relseg, limit, listed, known)
}
