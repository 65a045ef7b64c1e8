//! Copying the forks of an open store, segment file after segment file.

ghost use Rattle.std.specs.Prelude.{◌≡◌, ◌+◌, ◌*◌, ◌-◌, ◌<◌, true, false, map, IfOk, OnOk, IfErr};
ghost use Rattle.std.specs.List.Sorted.{IsStrictlySortedBy};
ghost use Rattle.lsn_core.specs.Names.{fork_path_bytes, IsNamed};
ghost use Rattle.lsn_core.specs.Segment.{IsRelseg};
ghost use Rattle.lsn_core.specs.Store.{fork_cmp, segment_count};
ghost use Rattle.store_locks.specs.Copied.{HasRedoPoint};
ghost use Rattle.backup_files.specs.Area.{HoldsNothing, Lacks};
ghost use Rattle.backup_sending.specs.Backup.{site_of};
ghost use Rattle.backup_sending.specs.Inside.{CopyCause, CopiesOn, LacksFork, PutsSegment, PutsFork, PutsStore};

use crate::files::copy_file;
use crate::gate::Gate;
use backup_files::file_row;
use lsn_core::{ForkId, ForkLen, Lsn, NoMemory, PAGE, Text, fork_path};
use manifest::FileRow;
use shared_store::{Pass, Store};
use std::alloc::Global;
use std::sync::Wait;
use store_faults::BackupFault;
use store_locks::OfCrew;
use vault::Vault;

/// The path of a segment file of a fork, plain or incremental.
pub(crate) fn segment_path(
    alloc: Global,
    fork: &ForkId,
    seg: u32,
    incr: bool,
) -> Result<Text, NoMemory>
    ensures named { IsNamed fork.now seg }
    ensures path { IfOk result (λ path. path ≡ fork_path_bytes fork.now seg incr) }
{
    // known: the numbers of a relation fit, and aren't 0
    let _numbers = (fork.rel.db(), fork.rel.rel());
    fork_path(alloc, *fork, seg, incr)
}

/// Looks at the numbers of a fork, which fit.
pub(crate) fn know_fork(fork: &ForkId, blocks: u32)
    ensures { IsNamed fork.now blocks }
{
    let _numbers = (fork.rel.db(), fork.rel.rel());
}

/// How many segment files a fork of so many blocks has.
pub(crate) fn segment_count(relseg: u32, blocks: u32) -> u32
    requires { IsRelseg relseg }
    ensures { result ≡ segment_count relseg blocks }
{
    blocks.div_ceil(relseg).max(1)
}

/// Copies the blocks of one segment of a fork into its file, which isn't there, and lists it.
pub(crate) fn copy_segment<J: OfCrew, V: Vault>(
    rt: &impl Wait,
    alloc: Global,
    store: &Store<J, V>,
    pass: &mut Pass<J>,
    gate: &impl Gate,
    out: &mut V,
    fork: &ForkLen,
    relseg: u32,
    seg: u32,
    from: Lsn,
    modified: &Text,
    rows: &mut Vec<FileRow>,
) -> Result<(), BackupFault>
    requires relseg { IsRelseg relseg }
    requires seg { seg < segment_count relseg fork.now.blocks }
    requires redo { HasRedoPoint pass.old.list from.0 }
    requires missing { Lacks (V.files out.old) (fork_path_bytes fork.now.fork seg false) }
    ensures put { OnOk result (PutsSegment (J.tells ≡ true) pass.new.list from.0 relseg fork.now
        seg modified.now (V.files out.old) (V.files out.new) rows.old.items rows.new.items) }
    ensures copies_on { CopiesOn V.Vault (site_of pass.old out.old) (site_of pass.new out.new) }
    ensures cause { IfErr result (CopyCause V.Vault (site_of pass.old out.old)
        (site_of pass.new out.new)) }
{
    let blocks = fork.blocks;
    let block = seg * relseg;
    let count = relseg.min(blocks - block);
    let path = segment_path(alloc, &fork.fork, seg, false)?;
    let sum = copy_file(
        rt,
        alloc,
        store,
        pass,
        gate,
        out,
        path.as_bytes(),
        &fork.fork,
        block,
        count,
        from,
    )?;
    let row = file_row(alloc, path, u64::from(count) * PAGE, modified, &sum)?;
    rows.push(row)?;
    Ok(())
}

/// Copies a fork into its files, of which none is there, and lists them.
fn copy_fork<J: OfCrew, V: Vault>(
    rt: &impl Wait,
    alloc: Global,
    store: &Store<J, V>,
    pass: &mut Pass<J>,
    gate: &impl Gate,
    out: &mut V,
    fork: &ForkLen,
    relseg: u32,
    from: Lsn,
    modified: &Text,
    rows: &mut Vec<FileRow>,
) -> Result<(), BackupFault>
    requires relseg { IsRelseg relseg }
    requires redo { HasRedoPoint pass.old.list from.0 }
    requires missing { LacksFork (V.files out.old) fork.now.fork }
    ensures put { OnOk result (PutsFork (J.tells ≡ true) pass.new.list from.0 relseg fork.now
        modified.now (V.files out.old) (V.files out.new) rows.old.items rows.new.items) }
    ensures copies_on { CopiesOn V.Vault (site_of pass.old out.old) (site_of pass.new out.new) }
    ensures cause { IfErr result (CopyCause V.Vault (site_of pass.old out.old)
        (site_of pass.new out.new)) }
{
    // known: the fork's numbers fit
    let blocks = fork.blocks;
    know_fork(&fork.fork, blocks);
    let count = segment_count(relseg, blocks);
    let mut seg = 0;
    while seg < count {
        copy_segment(
            rt, alloc, store, pass, gate, out, fork, relseg, seg, from, modified, rows,
        )?;
        seg += 1;
    }
    Ok(())
}

/// Copies the forks of a list into an area that holds nothing, and lists their files.
pub(crate) fn copy_forks<J: OfCrew, V: Vault>(
    rt: &impl Wait,
    alloc: Global,
    store: &Store<J, V>,
    pass: &mut Pass<J>,
    gate: &impl Gate,
    out: &mut V,
    forks: &[ForkLen],
    relseg: u32,
    from: Lsn,
    modified: &Text,
) -> Result<Vec<FileRow>, BackupFault>
    requires relseg { IsRelseg relseg }
    requires redo { HasRedoPoint pass.old.list from.0 }
    requires order { IsStrictlySortedBy fork_cmp (map (λ l. l.fork) forks.now) }
    requires empty { HoldsNothing (V.files out.old) }
    ensures put { IfOk result (λ rows. PutsStore (J.tells ≡ true) pass.new.list from.0 relseg
        forks.now modified.now (V.files out.old) (V.files out.new) rows.items) }
    ensures copies_on { CopiesOn V.Vault (site_of pass.old out.old) (site_of pass.new out.new) }
    ensures cause { IfErr result (CopyCause V.Vault (site_of pass.old out.old)
        (site_of pass.new out.new)) }
{
    let mut rows = Vec::new(alloc);
    let mut left = forks;
    while let Some((fork, behind)) = left.split_first() {
        copy_fork(
            rt, alloc, store, pass, gate, out, fork, relseg, from, modified, &mut rows,
        )?;
        left = behind;
    }
    Ok(rows)
}
