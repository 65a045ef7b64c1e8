//! The whole of combining.

ghost use Rattle.std.specs.Prelude.{◌≡◌, ◌≤◌, ℕ, length, IfOk, IfErr, OnOk, OnErr};
ghost use Rattle.backup_files.specs.Area.{EndsSynced, HoldsNothing};
ghost use Rattle.chain_files.specs.Told.{ArePlaces, AllOnlyRead};
ghost use Rattle.vault.specs.Frame.{OnlyReads};
ghost use Rattle.combine.specs.Combined.{other_rows};
ghost use Rattle.combine.specs.Inside.{CanPut, LookCause, PutsAll, WorkCause};
ghost use Rattle.combine.specs.Calls.{Combines, CombineCause, KeepsOut, KeepsFull, CannotList, LeavesManifest};

use crate::fault::CombineFault;
use crate::files::put_files;
use crate::targets::targets_of;
use backup_files::{is_empty, publish};
use backup_label::time_text;
use chain_check::Member;
use directory_files::{Target, can_list, relisted_text};
use manifest::Manifest;
use std::alloc::Global;
use vault::{Held, Vault};

/// The files that stand for those of a member, where its output is empty and a manifest can list
/// them.
fn targets_for<V: Vault>(
    alloc: Global,
    m: &Manifest,
    out: &mut V,
) -> Result<Vec<Target>, CombineFault>
    ensures targets { IfOk result (λ targets. CanPut m.now (V.files out.old) targets.items) }
    ensures reads { OnlyReads V.Vault out.old out.new }
    ensures cause { IfErr result (LookCause V.Vault m.now out.old out.new) }
{
    if !is_empty(alloc, out)? {
        return Err(CombineFault::NotEmpty);
    }
    let targets = targets_of(alloc, &m.files)?;
    if !can_list(alloc, m, &targets)? {
        return Err(CombineFault::Unlisted);
    }
    Ok(targets)
}

/// Writes the files that stand for those of the newest member and then the manifest, and says how
/// many files this lists.
fn put_all<V: Vault>(
    alloc: Global,
    areas: &mut [Held<V>],
    places: &[u32],
    m: &Manifest,
    targets: &[Target],
    out: &mut V,
    when: u64,
) -> Result<u64, CombineFault>
    requires places { ArePlaces (length areas.old) places.now }
    requires some { 1 ≤ length places.now }
    requires when { when ≤ 253402207199 }
    requires can { CanPut m.now (V.files out.old) targets.now }
    ensures counted { IfOk result (λ count. count ≡ length targets.now) }
    ensures put { IfOk result (λ count.
        PutsAll V.Vault places.now m.now when areas.old out.new count) }
    ensures synced { OnOk result (EndsSynced V.Vault out.new) }
    ensures reads { AllOnlyRead V.Vault areas.old areas.new }
    ensures left { IfErr result (LeavesManifest V.Vault
        ((count : ℕ) × PutsAll V.Vault places.now m.now when areas.old out.new count)
        out.old out.new) }
    ensures later { V.faults out.old ≤ V.faults out.new }
    ensures cause { IfErr result (WorkCause V.Vault areas.old out.old areas.new out.new) }
{
    let modified = time_text(alloc, when, b"GMT")?;
    let place = places[places.len() - 1];
    let rows = put_files(alloc, areas, places, place, targets, out, &modified)?;
    let count = rows.len() as u64;
    let text = relisted_text(alloc, m, rows)?;
    publish(out, &text)?;
    Ok(count)
}

/// Combines a chain of backups, of which `places` says for each member, the oldest one first, which
/// of the areas is its own, into an output that holds no file, at a moment in seconds since 1970
/// UTC (PostgreSQL manual, pg_combinebackup). `newest` is the last member, as its directory was
/// found to be; the chain was accepted. Each file that it lists is written in the order of its
/// rows: an incremental one rebuilt under its plain path, the label without the lines of an
/// incremental backup, any other byte for byte; then a manifest of version 2 behind a sync, which a
/// sync follows, with SHA-256 sums, the moment, and the newest member's system identifier and range
/// of the WAL. The answer is how many files that lists.
///
/// Errs with `NotEmpty` exactly where the output holds a file, with `Unlisted` where no manifest
/// can list what a member is combined to, which none is that was found to be as listed, otherwise
/// with what the areas' calls answer. After a refusal the output has no manifest, unless the
/// manifest's removal failed too (the order: profile).
pub fn combine<V: Vault>(
    alloc: Global,
    areas: &mut [Held<V>],
    places: &[u32],
    newest: &Member,
    out: &mut V,
    when: u64,
) -> Result<u64, CombineFault>
    requires places { ArePlaces (length areas.old) places.now }
    requires some { 1 ≤ length places.now }
    requires when { when ≤ 253402207199 }
    ensures combined { IfOk result (λ count.
        Combines V.Vault places.now newest.now when areas.old out.new count) }
    ensures synced { OnOk result (EndsSynced V.Vault out.new) }
    ensures counted { IfOk result (λ count.
        count ≡ length (other_rows newest.now.manifest.files)) }
    ensures listable { OnOk result (CannotList newest.now.manifest → ⊥) }
    ensures empty { OnOk result (HoldsNothing (V.files out.old)) }
    ensures reads { AllOnlyRead V.Vault areas.old areas.new }
    ensures kept { IfErr result (KeepsOut V.Vault out.old out.new) }
    ensures full { OnErr result (KeepsFull V.Vault out.old out.new) }
    ensures manifest { IfErr result (LeavesManifest V.Vault
        ((count : ℕ) × Combines V.Vault places.now newest.now when areas.old out.new count)
        out.old out.new) }
    ensures later { V.faults out.old ≤ V.faults out.new }
    ensures cause { IfErr result (CombineCause V.Vault newest.now.manifest areas.old out.old
        areas.new out.new) }
{
    let targets = targets_for(alloc, &newest.manifest, out)?;
    put_all(alloc, areas, places, &newest.manifest, &targets, out, when)
}
