//! Sending the forks of an open store, each segment file as it is planned.

ghost use Rattle.std.specs.Prelude.{◌≡◌, ◌+◌, ◌*◌, ◌-◌, ◌^◌, ◌<◌, true, false, [], ◌∷◌, map, IfOk, OnOk, IfErr};
ghost use Rattle.std.specs.List.{AllByRecursion};
ghost use Rattle.std.specs.List.Sorted.{IsStrictlySortedBy};
ghost use Rattle.lsn_core.specs.Names.{fork_path_bytes, IsNamed};
ghost use Rattle.lsn_core.specs.Segment.{IsRelseg};
ghost use Rattle.lsn_core.specs.Store.{fork_cmp, segment_count};
ghost use Rattle.store_locks.specs.Copied.{HasRedoPoint};
ghost use Rattle.wal_summary.specs.Summary.{AreSorted};
ghost use Rattle.incr_file.specs.Head.{IsHead};
ghost use Rattle.backup_files.specs.Area.{HoldsNothing, Lacks};
ghost use Rattle.backup_sending.specs.Backup.{site_of};
ghost use Rattle.backup_sending.specs.Inside.{CopyCause, CopiesOn};
ghost use Rattle.backup_sending.specs.Sent.{fork_plans, segment_plan};
ghost use Rattle.backup_sending.specs.Sending.{LacksForms, SendsFiles, SendsList, SendsPart, SendsStore};

use crate::basis::Basis;
use crate::forks::{copy_segment, know_fork, segment_count, segment_path};
use crate::gate::Gate;
use crate::listing::all_forks;
use crate::parts::copy_part;
use crate::planning::file_plan;
use backup_files::file_row;
use incr_file::{FilePlan, IncrHead, encode_head};
use lsn_core::{ForkId, ForkLen, Lsn, PAGE, Text};
use manifest::FileRow;
use shared_store::{Pass, Store};
use std::alloc::Global;
use std::sync::Wait;
use store_faults::BackupFault;
use store_locks::OfCrew;
use vault::Vault;

/// Copies the blocks that a head lists of a segment of a fork, which begins at a block of it, into
/// its incremental file, which isn't there, and lists it.
fn send_part<J: OfCrew, V: Vault>(
    rt: &impl Wait,
    alloc: Global,
    store: &Store<J, V>,
    pass: &mut Pass<J>,
    gate: &impl Gate,
    out: &mut V,
    fork: &ForkId,
    seg: u32,
    first: u32,
    head: &IncrHead,
    from: Lsn,
    modified: &Text,
    rows: &mut Vec<FileRow>,
) -> Result<(), BackupFault>
    requires written { IsHead head.now }
    requires within { AllByRecursion (λ block. first + block < 2 ^ 32) head.now.blocks }
    requires redo { HasRedoPoint pass.old.list from.0 }
    requires missing { Lacks (V.files out.old) (fork_path_bytes fork.now seg true) }
    ensures sent { OnOk result (SendsPart (J.tells ≡ true) pass.new.list from.0 fork.now seg first
        head.now modified.now (V.files out.old) (V.files out.new) rows.old.items rows.new.items) }
    ensures copies_on { CopiesOn V.Vault (site_of pass.old out.old) (site_of pass.new out.new) }
    ensures cause { IfErr result (CopyCause V.Vault (site_of pass.old out.old)
        (site_of pass.new out.new)) }
{
    let path = segment_path(alloc, fork, seg, true)?;
    let front = encode_head(alloc, head)?;
    let blocks = head.blocks.as_slice();
    let size = front.len() as u64 + PAGE * blocks.len() as u64;
    let sum = copy_part(
        rt,
        alloc,
        store,
        pass,
        gate,
        out,
        path.as_bytes(),
        &front,
        fork,
        first,
        blocks,
        from,
    )?;
    rows.push(file_row(alloc, path, size, modified, &sum)?)?;
    Ok(())
}

/// Sends one segment file of a fork as it is planned, where it is there in neither form, and lists
/// it.
fn send_segment<J: OfCrew, V: Vault>(
    rt: &impl Wait,
    alloc: Global,
    store: &Store<J, V>,
    pass: &mut Pass<J>,
    gate: &impl Gate,
    out: &mut V,
    basis: &Basis,
    fork: &ForkLen,
    seg: u32,
    from: Lsn,
    modified: &Text,
    rows: &mut Vec<FileRow>,
) -> Result<(), BackupFault>
    requires relseg { IsRelseg basis.now.relseg }
    requires sorted { AreSorted basis.now.summary.forks }
    requires seg { seg < segment_count basis.now.relseg fork.now.blocks }
    requires redo { HasRedoPoint pass.old.list from.0 }
    requires plain { Lacks (V.files out.old) (fork_path_bytes fork.now.fork seg false) }
    requires part { Lacks (V.files out.old) (fork_path_bytes fork.now.fork seg true) }
    ensures sent { OnOk result (SendsFiles (J.tells ≡ true) pass.new.list from.0
        (segment_plan basis.now fork.now seg ∷ []) modified.now (V.files out.old) (V.files out.new)
        rows.old.items rows.new.items) }
    ensures copies_on { CopiesOn V.Vault (site_of pass.old out.old) (site_of pass.new out.new) }
    ensures cause { IfErr result (CopyCause V.Vault (site_of pass.old out.old)
        (site_of pass.new out.new)) }
{
    // known: the fork's length fits
    let _blocks = fork.blocks;
    let relseg = basis.relseg();
    match file_plan(alloc, basis, fork, seg)? {
        FilePlan::Whole => copy_segment(
            rt, alloc, store, pass, gate, out, fork, relseg, seg, from, modified, rows,
        ),
        FilePlan::Incr(head) => {
            let first = seg * relseg;
            send_part(
                rt, alloc, store, pass, gate, out, &fork.fork, seg, first, &head, from, modified,
                rows,
            )
        }
    }
}

/// Sends the segment files of a fork, of which none is there in a form, and lists them.
fn send_fork<J: OfCrew, V: Vault>(
    rt: &impl Wait,
    alloc: Global,
    store: &Store<J, V>,
    pass: &mut Pass<J>,
    gate: &impl Gate,
    out: &mut V,
    basis: &Basis,
    fork: &ForkLen,
    from: Lsn,
    modified: &Text,
    rows: &mut Vec<FileRow>,
) -> Result<(), BackupFault>
    requires relseg { IsRelseg basis.now.relseg }
    requires sorted { AreSorted basis.now.summary.forks }
    requires redo { HasRedoPoint pass.old.list from.0 }
    requires missing { LacksForms (V.files out.old) fork.now.fork }
    ensures named { IsNamed fork.now.fork fork.now.blocks }
    ensures sent { OnOk result (SendsFiles (J.tells ≡ true) pass.new.list from.0
        (fork_plans basis.now fork.now) modified.now (V.files out.old) (V.files out.new)
        rows.old.items rows.new.items) }
    ensures copies_on { CopiesOn V.Vault (site_of pass.old out.old) (site_of pass.new out.new) }
    ensures cause { IfErr result (CopyCause V.Vault (site_of pass.old out.old)
        (site_of pass.new out.new)) }
{
    // known: the fork's numbers fit
    let blocks = fork.blocks;
    know_fork(&fork.fork, blocks);
    let count = segment_count(basis.relseg(), blocks);
    let mut seg = 0;
    while seg < count {
        send_segment(
            rt, alloc, store, pass, gate, out, basis, fork, seg, from, modified, rows,
        )?;
        seg += 1;
    }
    Ok(())
}

/// Sends the forks of a list into an area that holds nothing, and lists their files.
fn send_forks<J: OfCrew, V: Vault>(
    rt: &impl Wait,
    alloc: Global,
    store: &Store<J, V>,
    pass: &mut Pass<J>,
    gate: &impl Gate,
    out: &mut V,
    basis: &Basis,
    forks: &[ForkLen],
    from: Lsn,
    modified: &Text,
) -> Result<Vec<FileRow>, BackupFault>
    requires relseg { IsRelseg basis.now.relseg }
    requires sorted { AreSorted basis.now.summary.forks }
    requires redo { HasRedoPoint pass.old.list from.0 }
    requires order { IsStrictlySortedBy fork_cmp (map (λ l. l.fork) forks.now) }
    requires empty { HoldsNothing (V.files out.old) }
    ensures sent { IfOk result (λ rows. SendsList (J.tells ≡ true) pass.new.list from.0 basis.now
        forks.now modified.now (V.files out.old) (V.files out.new) rows.items) }
    ensures copies_on { CopiesOn V.Vault (site_of pass.old out.old) (site_of pass.new out.new) }
    ensures cause { IfErr result (CopyCause V.Vault (site_of pass.old out.old)
        (site_of pass.new out.new)) }
{
    let mut rows = Vec::new(alloc);
    let mut left = forks;
    while let Some((fork, behind)) = left.split_first() {
        send_fork(
            rt, alloc, store, pass, gate, out, basis, fork, from, modified, &mut rows,
        )?;
        left = behind;
    }
    Ok(rows)
}

/// Sends all forks of a store as of a redo point, each listed and copied at its moment, and lists
/// their files.
pub fn send_store<J: OfCrew, V: Vault>(
    rt: &impl Wait,
    alloc: Global,
    store: &Store<J, V>,
    pass: &mut Pass<J>,
    gate: &impl Gate,
    out: &mut V,
    basis: &Basis,
    from: Lsn,
    modified: &Text,
) -> Result<Vec<FileRow>, BackupFault>
    requires relseg { IsRelseg basis.now.relseg }
    requires sorted { AreSorted basis.now.summary.forks }
    requires redo { HasRedoPoint pass.old.list from.0 }
    requires empty { HoldsNothing (V.files out.old) }
    ensures sent { IfOk result (λ rows. SendsStore (J.tells ≡ true) pass.new.list from.0 basis.now
        modified.now (V.files out.new) rows.items) }
    ensures copies_on { CopiesOn V.Vault (site_of pass.old out.old) (site_of pass.new out.new) }
    ensures cause { IfErr result (CopyCause V.Vault (site_of pass.old out.old)
        (site_of pass.new out.new)) }
{
    let forks = all_forks(rt, alloc, store, pass, gate, from)?;
    send_forks(
        rt, alloc, store, pass, gate, out, basis, &forks, from, modified,
    )
}
