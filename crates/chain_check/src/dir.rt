//! The whole check of a directory.

ghost use Rattle.std.specs.Prelude.{IfSome};
ghost use Rattle.std.specs.Ordering.{nat_cmp};
ghost use Rattle.std.specs.Cmp.Lexicographic.{slice_cmp};
ghost use Rattle.std.specs.List.Sorted.{IsSortedByKey};
ghost use Rattle.vault.specs.Frame.{OnlyReads};
ghost use Rattle.chain_check.specs.Refusals.{DirAnswer, FailsRisen, RefusesRisen};
ghost use Rattle.chain_check.specs.Inside.{path_of, BehindAnswer, ListedAnswer};

use crate::fault::ChainFault;
use crate::forms::check_forms;
use crate::label::label_of;
use crate::listing::{check_others, manifest_of};
use crate::member::Member;
use crate::refusal::Refusal;
use crate::rows::check_rows;
use backup_label::Label;
use lsn_core::Text;
use manifest::Manifest;
use std::alloc::Global;
use vault::Vault;

/// The label of a directory with this manifest, or the first fault behind those of the listed
/// files.
fn label_behind<V: Vault>(
    alloc: Global,
    area: &mut V,
    manifest: &Manifest,
) -> Result<Label, ChainFault>
    requires { IsSortedByKey path_of (slice_cmp nat_cmp) manifest.now.files }
    ensures answer { IfSome (V.files area.old) (λ m. BehindAnswer m manifest.now result) }
    ensures reads { OnlyReads V.Vault area.old area.new }
    ensures cause { FailsRisen (V.faults area.old) (V.faults area.new) result }
{
    check_others(alloc, area, &manifest.files)?;
    let label = label_of(alloc, area, manifest.start)?;
    check_forms(alloc, area, &manifest.files)?;
    Ok(label)
}

/// The label of a directory with this manifest, or the first fault behind that of the manifest, and
/// how many listed files were found as listed before it.
fn listed_label<V: Vault>(
    alloc: Global,
    area: &mut V,
    manifest: &Manifest,
) -> Result<Label, Refusal>
    requires { IsSortedByKey path_of (slice_cmp nat_cmp) manifest.now.files }
    ensures answer { IfSome (V.files area.old) (λ m. ListedAnswer m manifest.now result) }
    ensures reads { OnlyReads V.Vault area.old area.new }
    ensures cause { RefusesRisen (V.faults area.old) (V.faults area.new) result }
{
    check_rows(alloc, area, &manifest.files)?;
    match label_behind(alloc, area, manifest) {
        Ok(label) => Ok(label),
        Err(fault) => Err(Refusal {
            fault,
            checked: manifest.files.len() as u64,
        }),
    }
}

/// Checks the directory of the backup of a name (PostgreSQL manual, pg_verifybackup; the order:
/// profile). Its answer is the member that it is, exactly where it is as its manifest lists it:
/// there is a manifest of version 2 whose sum holds, each listed file is there with its size and
/// its sum, `backup_label` is listed, no other file is there but `backup_manifest` and those below
/// `pg_wal/`, the label is of its grammar and tells the manifest's start, and the files have their
/// forms: plain ones of forks are of whole pages, incremental ones have a head of its grammar that
/// gives their size, and aren't there in the plain form too. Otherwise it errs with the first
/// fault, in the order of `ChainFault`, and with how many files were found as listed before it.
/// `Failed` comes only where the area's count of faults rose. The area is only read, each listed
/// file in pieces of at most 262,144 bytes, and of an incremental file the head once more. All
/// sizes are looked at before any sum.
pub fn check_dir<V: Vault>(alloc: Global, area: &mut V, name: &Text) -> Result<Member, Refusal>
    ensures answer { IfSome (V.files area.old) (λ m. DirAnswer m name.now result) }
    ensures reads { OnlyReads V.Vault area.old area.new }
    ensures cause { RefusesRisen (V.faults area.old) (V.faults area.new) result }
{
    let manifest = manifest_of(alloc, area)?;
    let label = listed_label(alloc, area, &manifest)?;
    let name = Text::copied(alloc, name.as_bytes())?;
    Ok(Member {
        name,
        label,
        manifest,
    })
}
