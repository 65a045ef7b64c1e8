//! An incremental backup.

ghost use Rattle.std.specs.Prelude.{◌≡◌, ◌<◌, ◌≤◌, true, IfOk, OnOk, IfErr, IfSome};
ghost use Rattle.lsn_core.specs.Segment.{IsRelseg};
ghost use Rattle.vault.specs.Frame.{OnlyReads};
ghost use Rattle.wal_summary.specs.Summary.{AreSorted};
ghost use Rattle.store_locks.specs.Copied.{HasRedoPoint};
ghost use Rattle.backup_files.specs.Area.{HoldsNothing, SparesManifest};
ghost use Rattle.backup_sending.specs.Backup.{LooksOn, site_of};
ghost use Rattle.incr_backup.specs.Prior.{IsOfStore, PriorAnswer};
ghost use Rattle.incr_backup.specs.Incr.{origin, incr_site, IncrAnswers, IsSpared};
ghost use Rattle.incr_backup.specs.IncrSteps.{EarlyRefusal, SumAnswer, HasBegun, BeginRefusal, IsSentWhole, SendCause};

use crate::prior::read_prior;
use backup_label::time_text;
use backup_sending::{Basis, Done, Gate, StepKind, check_empty, finish, send_store};
use lsn_core::{Lsn, Text};
use manifest::{FileRow, Manifest};
use shared_store::{Pass, Store};
use shared_summaries::{OfRetention, Summaries};
use std::alloc::Global;
use std::sync::Wait;
use store_faults::{BackupFault, IncrFault};
use store_locks::Redo;
use vault::Vault;
use wal_summary::Summary;

/// Looks whether the backup's area is empty, and reads the prior's manifest.
fn look<V: Vault>(
    alloc: Global,
    prior: &mut V,
    out: &mut V,
    system: u64,
) -> Result<Manifest, IncrFault>
    ensures empty { OnOk result (HoldsNothing (V.files out.old)) }
    ensures told { IfOk result (λ m. IfSome (V.files prior.old) (λ files.
        PriorAnswer files system (Ok m))) }
    ensures ours { IfOk result (IsOfStore system) }
    ensures refused { IfErr result (EarlyRefusal V.Vault system prior.old prior.new
        out.old out.new) }
    ensures spared { IsSpared V.Vault out.old out.new }
    ensures later { V.faults out.old ≤ V.faults out.new }
    ensures reads { OnlyReads V.Vault prior.old prior.new }
{
    check_empty(alloc, out)?;
    read_prior(alloc, prior, system)
}

/// The summary of the WAL from the prior backup's start to a redo point, which must not lie below
/// that backup's end. Publishes what can be published first.
fn sum_up<J: OfRetention, V: Vault>(
    rt: &impl Wait,
    alloc: Global,
    store: &Store<J, V>,
    sums: &Summaries<J, V>,
    pass: &mut Pass<J>,
    gate: &impl Gate,
    prior: &Manifest,
    redo: Lsn,
    when: u64,
) -> Result<Summary, IncrFault>
    requires rises { prior.now.start < prior.now.end }
    requires young { J.limit ≤ when }
    ensures answer { SumAnswer (J.tells ≡ true) (origin J.settings J.found J.sums J.limit) when
        pass.old pass.new prior.now redo result }
    ensures looks { LooksOn 0 pass.old pass.new }
{
    if redo < prior.end {
        return Err(IncrFault::Overlap(redo, prior.end));
    }
    let sum = sums.advance_covering(rt, alloc, store, pass, prior.start, redo, when)?;
    gate.passed(pass.worker(), StepKind::Publish);
    Ok(sum)
}

/// Does a checkpoint, and sums up the WAL since the prior backup's start.
fn begin<J: OfRetention, V: Vault>(
    rt: &impl Wait,
    alloc: Global,
    store: &Store<J, V>,
    sums: &Summaries<J, V>,
    pass: &mut Pass<J>,
    gate: &impl Gate,
    prior: Manifest,
    when: u64,
) -> Result<(Redo, Basis), IncrFault>
    requires rises { prior.start < prior.end }
    requires young { J.limit ≤ when }
    ensures begun { IfOk result (λ x. HasBegun (J.tells ≡ true)
        (origin J.settings J.found J.sums J.limit) when pass.old pass.new prior x.0 x.1) }
    ensures redo { IfOk result (λ x. HasRedoPoint pass.new.list x.0.redo.0) }
    ensures relseg { IfOk result (λ x. IsRelseg x.1.relseg) }
    ensures refused { IfErr result (BeginRefusal (J.tells ≡ true)
        (origin J.settings J.found J.sums J.limit) when pass.old pass.new prior) }
    ensures looks { LooksOn 2 pass.old pass.new }
{
    let (redo, _) = store.checkpoint(rt, alloc, pass)?;
    gate.passed(pass.worker(), StepKind::Begin);
    let summary = sum_up(rt, alloc, store, sums, pass, gate, &prior, redo.redo, when)?;
    let relseg = store.settings().relseg();
    Ok((
        redo,
        Basis {
            relseg,
            summary,
            prior,
        },
    ))
}

/// Sends all files as they are planned, and appends the end of the backup.
fn send_all<J: OfRetention, V: Vault>(
    rt: &impl Wait,
    alloc: Global,
    store: &Store<J, V>,
    pass: &mut Pass<J>,
    gate: &impl Gate,
    out: &mut V,
    basis: &Basis,
    redo: Redo,
    modified: &Text,
) -> Result<(Lsn, Vec<FileRow>), BackupFault>
    requires relseg { IsRelseg basis.now.relseg }
    requires sorted { AreSorted basis.now.summary.forks }
    requires redo { HasRedoPoint pass.old.list redo.redo.0 }
    requires empty { HoldsNothing (V.files out.old) }
    ensures sent { IfOk result (λ x. IsSentWhole (J.tells ≡ true) J.settings.segment
        pass.old pass.new basis.now modified.now (V.files out.new) redo x.0 x.1.items) }
    ensures refused { IfErr result (SendCause V.Vault J.settings.segment redo
        (site_of pass.old out.old) (site_of pass.new out.new)) }
    ensures looks { LooksOn 1 pass.old pass.new }
    ensures spares { SparesManifest V.Vault out.old out.new }
{
    // known: a segment of the WAL has bytes
    let _size = store.settings().segment();
    let rows = send_store(
        rt, alloc, store, pass, gate, out, basis, redo.redo, modified,
    )?;
    let (end, _) = store.end_backup(rt, alloc, pass, redo.redo)?;
    gate.passed(pass.worker(), StepKind::End);
    Ok((end, rows))
}

/// Takes an incremental backup of an open store into an area, over a prior backup in an area of its
/// own, under a name and at a moment in seconds since 1970 UTC, while other workers change the
/// store and publish summaries: a checkpoint, whose redo point is the backup's start; the summaries
/// of the WAL that can be published; the forks of each partition; of their segment files, each
/// whole or with the blocks that changed since the prior backup's start, zeros for a block that is
/// gone when it is copied; the end of the backup; the label; and the manifest behind a sync, which
/// a sync follows. Of the prior backup it reads the manifest alone. The gate is passed behind each
/// step that is done on the store and on the summaries.
///
/// Errs with the first refusal in the order of `IncrFault`, the first four before anything is done
/// to the store, to the summaries and to the area, otherwise with what the store's calls answer.
/// After a refusal the area has no manifest, unless the manifest's removal failed too (PostgreSQL
/// manual, pg_basebackup, --incremental; the order: profile).
pub fn take_incr<J: OfRetention, V: Vault>(
    rt: &impl Wait,
    alloc: Global,
    store: &Store<J, V>,
    sums: &Summaries<J, V>,
    pass: &mut Pass<J>,
    gate: &impl Gate,
    prior: &mut V,
    out: &mut V,
    name: &Text,
    when: u64,
) -> Result<Done, IncrFault>
    requires when { when ≤ 253402207199 }
    requires young { J.limit ≤ when }
    ensures answer { IncrAnswers V.Vault (J.tells ≡ true) (origin J.settings J.found J.sums J.limit)
        name.now when (incr_site pass.old prior.old out.old)
        (incr_site pass.new prior.new out.new) result }
    ensures looks { LooksOn 3 pass.old pass.new }
    ensures prior { OnlyReads V.Vault prior.old prior.new }
    ensures later { V.faults out.old ≤ V.faults out.new }
{
    let settings = store.settings();
    let manifest = look(alloc, prior, out, settings.system())?;
    let start = manifest.start;
    let modified = time_text(alloc, when, b"GMT")?;
    let (redo, basis) = begin(rt, alloc, store, sums, pass, gate, manifest, when)?;
    let (end, rows) = send_all(rt, alloc, store, pass, gate, out, &basis, redo, &modified)?;
    let files = finish(
        alloc,
        out,
        settings,
        name,
        when,
        &modified,
        redo,
        Some(start),
        end,
        rows,
    )?;
    Ok(Done {
        start: redo.redo,
        end,
        files,
    })
}
