//! Segment files that a stop left, made neat.

ghost use Rattle.std.specs.Prelude.{◌≡◌, ◌≤◌, ◌*◌, IfOk, IfSome, OnOk};
ghost use Rattle.std.specs.List.{All};
ghost use Rattle.std.specs.Option.{option_map};
ghost use Rattle.lsn_core.specs.Causes.{HasCause};
ghost use Rattle.lsn_core.specs.Names.{IsNamed};
ghost use Rattle.lsn_core.specs.Segment.{IsRelseg};
ghost use Rattle.vault.specs.Frame.{ChangesOnly, OnlyReads};
ghost use Rattle.rel_files.specs.Forks.{IsForkPath};
ghost use Rattle.rel_neat.specs.Neat.{IsNeat, KeepsWhatStays};
ghost use Rattle.rel_neat.specs.Segments.{blocks_in, is_stray, neatened, TellsSegment};
ghost use Rattle.rel_neat.specs.Segments.{IsSegmentNamed, ListsSegments, Removes, CutsTo};

use lsn_core::{AreaFault, ForkId, fork_path, path_fork};
use std::alloc::Global;
use vault::Vault;

/// The segment file of a fork that has this path, in its plain form.
fn plain_segment(path: &[u8]) -> Option<(ForkId, u32)>
    ensures { TellsSegment path.now result }
{
    let (fork, seg, incr) = path_fork(path)?;
    if incr {
        return None;
    }
    Some((fork, seg))
}

/// The segment files of forks in an area by their numbers, so that each comes behind the earlier
/// ones of its fork.
fn segments<V: Vault>(alloc: Global, area: &mut V) -> Result<Vec<(ForkId, u32)>, AreaFault>
    ensures all { IfOk result (λ found. IfSome (V.files area.old) (ListsSegments found.items)) }
    ensures named { IfOk result (λ found. All IsSegmentNamed found.items) }
    ensures reads { OnlyReads V.Vault area.old area.new }
    ensures cause { HasCause (V.faults area.old) (V.faults area.new) result }
{
    let names = area.names(alloc)?;
    let mut found = Vec::new(alloc);
    for name in &names {
        if let Some(segment) = plain_segment(name.as_bytes()) {
            found.push(segment)?;
        }
    }
    found.sort_by_key(|segment| segment.1)?;
    Ok(found)
}

/// How many whole blocks a segment file has, at most as many as one may have. A missing one has
/// none.
fn count_blocks<V: Vault>(
    alloc: Global,
    area: &mut V,
    fork: &ForkId,
    seg: u32,
    relseg: u32,
) -> Result<u64, AreaFault>
    ensures count { IfOk result (λ n.
        IfSome (V.files area.old) (λ m. n ≡ blocks_in relseg m fork.now seg)) }
    ensures most { IfOk result (λ n. n ≤ relseg) }
    ensures reads { OnlyReads V.Vault area.old area.new }
    ensures cause { HasCause (V.faults area.old) (V.faults area.new) result }
{
    let path = fork_path(alloc, *fork, seg, false)?;
    let size = area.size(path.as_bytes())?.unwrap_or(0);
    Ok((size / 8192).min(u64::from(relseg)))
}

/// Whether a segment file of so many whole blocks is one that its fork doesn't have: it isn't the
/// first, and is empty or stands behind one that is missing or not full.
fn is_stray<V: Vault>(
    alloc: Global,
    area: &mut V,
    fork: &ForkId,
    seg: u32,
    relseg: u32,
    blocks: u64,
) -> Result<bool, AreaFault>
    ensures told { IfOk result (λ stray. IfSome (V.files area.old) (λ m.
        blocks ≡ blocks_in relseg m fork.now seg → stray ≡ is_stray relseg m fork.now seg)) }
    ensures reads { OnlyReads V.Vault area.old area.new }
    ensures cause { HasCause (V.faults area.old) (V.faults area.new) result }
{
    if seg == 0 {
        return Ok(false);
    }
    let before = count_blocks(alloc, area, fork, seg - 1, relseg)?;
    Ok(blocks == 0 || before < u64::from(relseg))
}

/// Removes a segment file.
fn remove_segment<V: Vault>(
    alloc: Global,
    area: &mut V,
    fork: &ForkId,
    seg: u32,
) -> Result<(), AreaFault>
    requires { IsNamed fork.now seg }
    ensures removed { Removes V.Vault fork.now seg area.old area.new result }
    ensures changes { ChangesOnly V.Vault IsForkPath area.old area.new }
    ensures cause { HasCause (V.faults area.old) (V.faults area.new) result }
{
    let path = fork_path(alloc, *fork, seg, false)?;
    area.remove(path.as_bytes())
}

/// Cuts a segment file to so many blocks.
fn cut_segment<V: Vault>(
    alloc: Global,
    area: &mut V,
    fork: &ForkId,
    seg: u32,
    blocks: u64,
) -> Result<(), AreaFault>
    requires blocks { blocks ≤ 131072 }
    requires named { IsNamed fork.now seg }
    ensures cut { CutsTo V.Vault fork.now seg (blocks * 8192) area.old area.new result }
    ensures changes { ChangesOnly V.Vault IsForkPath area.old area.new }
    ensures cause { HasCause (V.faults area.old) (V.faults area.new) result }
{
    let path = fork_path(alloc, *fork, seg, false)?;
    area.cut(path.as_bytes(), blocks * 8192)
}

/// Cuts a segment file to its whole blocks, or removes it where its fork doesn't have it.
fn neaten_segment<V: Vault>(
    alloc: Global,
    area: &mut V,
    fork: &ForkId,
    seg: u32,
    relseg: u32,
) -> Result<(), AreaFault>
    requires relseg { IsRelseg relseg }
    requires named { IsNamed fork.now seg }
    ensures neat { OnOk result
        (V.files area.new ≡ option_map (neatened relseg fork.now seg) (V.files area.old)) }
    ensures keeps { KeepsWhatStays V.Vault relseg area.old area.new }
    ensures changes { ChangesOnly V.Vault IsForkPath area.old area.new }
    ensures cause { HasCause (V.faults area.old) (V.faults area.new) result }
{
    let blocks = count_blocks(alloc, area, fork, seg, relseg)?;
    if is_stray(alloc, area, fork, seg, relseg, blocks)? {
        return remove_segment(alloc, area, fork, seg);
    }
    cut_segment(alloc, area, fork, seg, blocks)
}

/// Makes the segment files of forks in an area hold whole pages and nothing else: each is cut to
/// its whole blocks, at most as many as a file may have, and those numbered 1 or more are removed
/// that are empty then, or stand behind one that is missing or not full. What stays of the area's
/// pages stays, also where a stop comes meanwhile. After a fault some files may have been made so.
pub fn neaten<V: Vault>(alloc: Global, area: &mut V, relseg: u32) -> Result<(), AreaFault>
    requires relseg { IsRelseg relseg }
    ensures neat { OnOk result (IfSome (V.files area.new) (IsNeat relseg)) }
    ensures keeps { KeepsWhatStays V.Vault relseg area.old area.new }
    ensures changes { ChangesOnly V.Vault IsForkPath area.old area.new }
    ensures cause { HasCause (V.faults area.old) (V.faults area.new) result }
{
    let found = segments(alloc, area)?;
    for segment in &found {
        neaten_segment(alloc, area, &segment.0, segment.1, relseg)?;
    }
    Ok(())
}
