//! A full backup.

ghost use Rattle.std.specs.Prelude.{◌≡◌, ◌<◌, ◌≤◌, ℕ, true, codes, IfOk, OnOk, OnErr, IfErr};
ghost use Rattle.store_locks.specs.Copied.{HasRedoPoint};
ghost use Rattle.backup_label.specs.Time.{IsTimeText};
ghost use Rattle.backup_files.specs.Area.{EndsSynced, HoldsNothing};
ghost use Rattle.backup_sending.specs.Backup.{LooksOn, site_of, IsTakenFull, IsTakenWhole, KeepsFull};
ghost use Rattle.backup_sending.specs.Backup.{BackupCause, GoesPast, LeavesManifest};
ghost use Rattle.backup_files.specs.Area.{SparesManifest};
ghost use Rattle.backup_sending.specs.Inside.{CopyCause, CopiesOn, CopiesStore, IsRun};
ghost use Rattle.backup_sending.specs.Inside.{LookCause, EndCause, CanFinish, Finishes};

use crate::done::Done;
use crate::forks::copy_forks;
use crate::gate::{Gate, StepKind};
use crate::listed::add_label;
use crate::listing::all_forks;
use backup_files::{is_empty, manifest_text, publish};
use backup_label::time_text;
use lsn_core::{Lsn, Settings, Text};
use manifest::FileRow;
use shared_store::{Pass, Store};
use std::alloc::Global;
use std::sync::Wait;
use store_faults::BackupFault;
use store_locks::{OfCrew, Redo};
use vault::Vault;

/// Looks whether an area is empty. Errs with `NotEmpty` exactly where it holds a file.
pub fn check_empty<V: Vault>(alloc: Global, out: &mut V) -> Result<(), BackupFault>
    ensures empty { OnOk result (HoldsNothing (V.files out.old)) }
    ensures same { V.files out.new ≡ V.files out.old }
    ensures past { V.past out.new ≡ V.past out.old }
    ensures later { V.faults out.old ≤ V.faults out.new }
    ensures cause { IfErr result (LookCause V.Vault out.old out.new) }
{
    if is_empty(alloc, out)? {
        return Ok(());
    }
    Err(BackupFault::NotEmpty)
}

/// Copies all forks of a store as of a redo point, each at its moment, and lists their files.
fn copy_store<J: OfCrew, V: Vault>(
    rt: &impl Wait,
    alloc: Global,
    store: &Store<J, V>,
    pass: &mut Pass<J>,
    gate: &impl Gate,
    out: &mut V,
    from: Lsn,
    modified: &Text,
) -> Result<Vec<FileRow>, BackupFault>
    requires redo { HasRedoPoint pass.old.list from.0 }
    requires empty { HoldsNothing (V.files out.old) }
    ensures copied { IfOk result (λ rows. CopiesStore (J.tells ≡ true) pass.new.list from.0
        J.settings.relseg modified.now (V.files out.new) rows.items) }
    ensures copies_on { CopiesOn V.Vault (site_of pass.old out.old) (site_of pass.new out.new) }
    ensures cause { IfErr result (CopyCause V.Vault (site_of pass.old out.old)
        (site_of pass.new out.new)) }
{
    let forks = all_forks(rt, alloc, store, pass, gate, from)?;
    let relseg = store.settings().relseg();
    copy_forks(
        rt, alloc, store, pass, gate, out, &forks, relseg, from, modified,
    )
}

/// Does a checkpoint, copies all files, and appends the end of the backup.
fn run_backup<J: OfCrew, V: Vault>(
    rt: &impl Wait,
    alloc: Global,
    store: &Store<J, V>,
    pass: &mut Pass<J>,
    gate: &impl Gate,
    out: &mut V,
    modified: &Text,
) -> Result<(Redo, Lsn, Vec<FileRow>), BackupFault>
    requires { HoldsNothing (V.files out.old) }
    ensures run { IfOk result (λ x. IsRun (J.tells ≡ true) J.settings pass.old pass.new
        modified.now (V.files out.new) x.0 x.1 x.2.items) }
    ensures looks { LooksOn 3 pass.old pass.new }
    ensures spares { SparesManifest V.Vault out.old out.new }
    ensures cause { IfErr result (BackupCause V.Vault J.settings.segment (site_of pass.old out.old)
        (site_of pass.new out.new)) }
{
    // known: a segment of the WAL has bytes
    let _size = store.settings().segment();
    let (redo, _) = store.checkpoint(rt, alloc, pass)?;
    gate.passed(pass.worker(), StepKind::Begin);
    let rows = copy_store(rt, alloc, store, pass, gate, out, redo.redo, modified)?;
    let (end, _) = store.end_backup(rt, alloc, pass, redo.redo)?;
    gate.passed(pass.worker(), StepKind::End);
    Ok((redo, end, rows))
}

/// Writes the label and then the manifest of a backup that was run, full or over a prior one that
/// starts at a place, and says how many files this lists.
pub fn finish<V: Vault>(
    alloc: Global,
    out: &mut V,
    settings: Settings,
    name: &Text,
    when: u64,
    modified: &Text,
    redo: Redo,
    prior: Option<Lsn>,
    end: Lsn,
    rows: Vec<FileRow>,
) -> Result<u64, BackupFault>
    requires when { when ≤ 253402207199 }
    requires modified { IsTimeText when (codes "GMT") modified.now }
    requires run { CanFinish settings modified.now (V.files out.old) redo end rows.items }
    ensures done { IfOk result (Finishes settings name.now when modified.now (V.files out.old)
        (V.files out.new) redo prior end rows.items) }
    ensures synced { OnOk result (EndsSynced V.Vault out.new) }
    ensures left { IfErr result (LeavesManifest V.Vault
        ((count : ℕ) × Finishes settings name.now when modified.now (V.files out.old)
        (V.files out.new) redo prior end rows.items count) out.old out.new) }
    ensures later { V.faults out.old ≤ V.faults out.new }
    ensures cause { IfErr result (EndCause V.Vault out.old out.new) }
{
    let mut rows = rows;
    add_label(
        alloc, out, settings, redo, prior, name, when, modified, &mut rows,
    )?;
    let count = rows.len() as u64;
    let text = manifest_text(alloc, settings.system(), rows, redo.redo, end)?;
    publish(out, &text)?;
    Ok(count)
}

/// Takes a full backup of an open store into an area, under a name and at a moment in seconds since
/// 1970 UTC, while other workers change the store: a checkpoint, whose redo point is the backup's
/// start; the forks of each partition; their blocks, file by file, zeros for a block that is gone
/// when it is copied; the end of the backup; the label; and the manifest behind a sync, which a
/// sync follows. The gate is passed behind each step that is done on the store. Beside a buffer of
/// 64 KiB it takes memory for the manifest's rows and text alone, and has that before it writes the
/// manifest.
///
/// Errs with `NotEmpty` exactly where the area holds a file, before anything is done to the store,
/// otherwise with what the store's calls answer. After a refusal the area has no manifest, unless
/// the manifest's removal failed too (PostgreSQL manual, pg_basebackup; the order: profile).
pub fn take_full<J: OfCrew, V: Vault>(
    rt: &impl Wait,
    alloc: Global,
    store: &Store<J, V>,
    pass: &mut Pass<J>,
    gate: &impl Gate,
    out: &mut V,
    name: &Text,
    when: u64,
) -> Result<Done, BackupFault>
    requires { when ≤ 253402207199 }
    ensures taken { IfOk result (IsTakenFull (J.tells ≡ true) J.settings name.now when
        pass.old pass.new (V.files out.new)) }
    ensures synced { OnOk result (EndsSynced V.Vault out.new) }
    ensures empty { OnOk result (HoldsNothing (V.files out.old)) }
    ensures looked { IfErr result (GoesPast (V.files out.old)) }
    ensures kept { OnErr result (KeepsFull V.Vault (site_of pass.old out.old)
        (site_of pass.new out.new)) }
    ensures manifest { IfErr result (LeavesManifest V.Vault (IsTakenWhole (J.tells ≡ true)
        J.settings name.now when pass.old pass.new (V.files out.new)) out.old out.new) }
    ensures cause { IfErr result (BackupCause V.Vault J.settings.segment (site_of pass.old out.old)
        (site_of pass.new out.new)) }
    ensures looks { LooksOn 3 pass.old pass.new }
    ensures later { V.faults out.old ≤ V.faults out.new }
{
    check_empty(alloc, out)?;
    let modified = time_text(alloc, when, b"GMT")?;
    let (redo, end, rows) = run_backup(rt, alloc, store, pass, gate, out, &modified)?;
    let settings = store.settings();
    // known: a file of a fork has blocks
    let _blocks = settings.relseg();
    let files = finish(
        alloc, out, settings, name, when, &modified, redo, None, end, rows,
    )?;
    Ok(Done {
        start: redo.redo,
        end,
        files,
    })
}
