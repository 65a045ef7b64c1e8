//! The manifest of a directory, and the files that are there beside it.

ghost use Rattle.std.specs.Prelude.{IfOk, IfSome};
ghost use Rattle.std.specs.Ordering.{nat_cmp};
ghost use Rattle.std.specs.Cmp.Lexicographic.{slice_cmp};
ghost use Rattle.std.specs.List.Sorted.{IsSortedByKey};
ghost use Rattle.lsn_core.specs.Causes.{HasCause};
ghost use Rattle.vault.specs.Frame.{OnlyReads};
ghost use Rattle.backup_files.specs.Directory.{manifest_name};
ghost use Rattle.chain_check.specs.Refusals.{others_fault, FailsRisen};
ghost use Rattle.chain_check.specs.Inside.{path_of, Answers, IsFile, TextAnswer, ManifestAnswer};
ghost use Rattle.chain_check.specs.Inside.{NeverFails};

use crate::extra::{check_extra, check_label_row};
use crate::fault::ChainFault;
use backup_files::MANIFEST;
use lsn_core::AreaFault;
use manifest::{FileRow, Manifest, read_manifest};
use std::alloc::Global;
use vault::{Vault, read_whole};

/// The bytes of the manifest, where it is there.
fn manifest_bytes<V: Vault>(alloc: Global, area: &mut V) -> Result<Option<Vec<u8>>, AreaFault>
    ensures bytes { IfOk result (λ found. IfSome (V.files area.old) (λ m.
        IsFile m manifest_name found)) }
    ensures reads { OnlyReads V.Vault area.old area.new }
    ensures cause { HasCause (V.faults area.old) (V.faults area.new) result }
{
    if area.size(MANIFEST)?.is_none() {
        return Ok(None);
    }
    let bytes = read_whole(alloc, area, MANIFEST)?;
    Ok(Some(bytes))
}

/// The manifest of a text, its rows in byte order of their paths, or why it is refused.
fn manifest_in(alloc: Global, bytes: &[u8]) -> Result<Manifest, ChainFault>
    ensures answer { TextAnswer bytes.now result }
    ensures sorted { IfOk result (λ m. IsSortedByKey path_of (slice_cmp nat_cmp) m.files) }
    ensures memory { NeverFails result }
{
    match read_manifest(alloc, bytes) {
        Ok(manifest) => Ok(manifest),
        Err(fault) => Err(ChainFault::from(fault)),
    }
}

/// The manifest of a directory, or why there is none.
pub(crate) fn manifest_of<V: Vault>(alloc: Global, area: &mut V) -> Result<Manifest, ChainFault>
    ensures answer { IfSome (V.files area.old) (λ m. ManifestAnswer m result) }
    ensures sorted { IfOk result (λ m. IsSortedByKey path_of (slice_cmp nat_cmp) m.files) }
    ensures reads { OnlyReads V.Vault area.old area.new }
    ensures cause { FailsRisen (V.faults area.old) (V.faults area.new) result }
{
    match manifest_bytes(alloc, area)? {
        Some(bytes) => manifest_in(alloc, &bytes),
        None => Err(ChainFault::NoManifest),
    }
}

/// Errs with the first fault of the label's row and of the files beside those of the rows.
pub(crate) fn check_others<V: Vault>(
    alloc: Global,
    area: &mut V,
    rows: &[FileRow],
) -> Result<(), ChainFault>
    requires { IsSortedByKey path_of (slice_cmp nat_cmp) rows.now }
    ensures answer { IfSome (V.files area.old) (λ m. Answers (others_fault m rows.now) result) }
    ensures reads { OnlyReads V.Vault area.old area.new }
    ensures cause { FailsRisen (V.faults area.old) (V.faults area.new) result }
{
    check_label_row(alloc, rows)?;
    check_extra(alloc, area, rows)
}
