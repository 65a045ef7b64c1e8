//! The files of a combined backup, one after the other.

ghost use Rattle.std.specs.Prelude.{◌≡◌, ◌≢◌, ◌<◌, ◌≤◌, length, map, IfOk, IfErr, IfSome, OnOk};
ghost use Rattle.std.specs.List.{AllByRecursion, IsDistinct};
ghost use Rattle.std.specs.Ordering.{nat_cmp, eq_by_cmp};
ghost use Rattle.std.specs.Cmp.Lexicographic.{slice_cmp};
ghost use Rattle.backup_files.specs.Directory.{manifest_name};
ghost use Rattle.backup_files.specs.Area.{HoldsNothing, Lacks, SparesManifest};
ghost use Rattle.chain_files.specs.Told.{chain_told, told_at, ArePlaces, AllOnlyRead};
ghost use Rattle.directory_files.specs.Faults.{WriteCause};
ghost use Rattle.directory_files.specs.Written.{IsMade, PutsFile, PutsFiles, to_of};
ghost use Rattle.combine.specs.Combined.{kept_bytes};
ghost use Rattle.combine.specs.Inside.{IsContent, IsLast, IsTarget};

use crate::label::copy_label;
use chain_files::incremental;
use directory_files::{Growing, Target, WriteFault, copy_file, list_file, rebuild_file};
use lsn_core::Text;
use manifest::FileRow;
use std::alloc::Global;
use vault::{Held, Vault};

/// The path of the label.
const LABEL: &[u8] = b"backup_label";

/// Writes the file of this path that stands for one that isn't rebuilt.
fn keep_file<V: Vault>(
    alloc: Global,
    areas: &mut [Held<V>],
    place: u32,
    path: &[u8],
    out: &mut V,
    buffer: &mut [u8; 65536],
) -> Result<Growing, WriteFault>
    requires place { place < length areas.old }
    requires other { path.now ≢ manifest_name }
    requires missing { Lacks (V.files out.old) path.now }
    ensures made { IfOk result (IsMade (λ bytes. IfSome (told_at V.Vault areas.old place) (λ m.
        bytes ≡ kept_bytes m path.now)) path.now (V.files out.old) (V.files out.new)) }
    ensures reads { AllOnlyRead V.Vault areas.old areas.new }
    ensures spares { SparesManifest V.Vault out.old out.new }
    ensures cause { IfErr result (WriteCause V.Vault areas.old out.old areas.new out.new) }
{
    if path == LABEL {
        return copy_label(alloc, areas, place, path, out);
    }
    copy_file(areas, place, path, out, buffer)
}

/// Writes the file that stands for one of the newest member.
fn combine_file<V: Vault>(
    alloc: Global,
    areas: &mut [Held<V>],
    places: &[u32],
    place: u32,
    target: &Target,
    out: &mut V,
    buffer: &mut [u8; 65536],
) -> Result<Growing, WriteFault>
    requires places { ArePlaces (length areas.old) places.now }
    requires last { IsLast places.now place }
    requires target { IsTarget target.now.from target.now }
    requires missing { Lacks (V.files out.old) target.now.to }
    ensures made { IfOk result (IsMade
        (IsContent (chain_told V.Vault areas.old places.now) target.now)
        target.now.to (V.files out.old) (V.files out.new)) }
    ensures reads { AllOnlyRead V.Vault areas.old areas.new }
    ensures spares { SparesManifest V.Vault out.old out.new }
    ensures cause { IfErr result (WriteCause V.Vault areas.old out.old areas.new out.new) }
{
    let to = target.to.as_bytes();
    match incremental(target.from.as_bytes()) {
        Some((folder, name)) => rebuild_file(alloc, areas, places, folder, name, to, out, buffer),
        None => keep_file(alloc, areas, place, to, out, buffer),
    }
}

/// Writes the file that stands for one of the newest member, and lists it.
fn put_file<V: Vault>(
    alloc: Global,
    areas: &mut [Held<V>],
    places: &[u32],
    place: u32,
    target: &Target,
    out: &mut V,
    buffer: &mut [u8; 65536],
    modified: &Text,
    rows: &mut Vec<FileRow>,
) -> Result<(), WriteFault>
    requires places { ArePlaces (length areas.old) places.now }
    requires last { IsLast places.now place }
    requires target { IsTarget target.now.from target.now }
    requires missing { Lacks (V.files out.old) target.now.to }
    ensures put { OnOk result (PutsFile
        (IsContent (chain_told V.Vault areas.old places.now) target.now) target.now.to
        modified.now (V.files out.old) (V.files out.new) rows.old.items rows.new.items) }
    ensures reads { AllOnlyRead V.Vault areas.old areas.new }
    ensures spares { SparesManifest V.Vault out.old out.new }
    ensures cause { IfErr result (WriteCause V.Vault areas.old out.old areas.new out.new) }
{
    let file = combine_file(alloc, areas, places, place, target, out, buffer)?;
    list_file(alloc, target.to.as_bytes(), file, modified, rows)?;
    Ok(())
}

/// A buffer for a piece.
fn zeros() -> [u8; 65536] {
    [0; 65536]
}

/// Writes the files that stand for those of the newest member, and gives their rows.
pub(crate) fn put_files<V: Vault>(
    alloc: Global,
    areas: &mut [Held<V>],
    places: &[u32],
    place: u32,
    targets: &[Target],
    out: &mut V,
    modified: &Text,
) -> Result<Vec<FileRow>, WriteFault>
    requires places { ArePlaces (length areas.old) places.now }
    requires last { IsLast places.now place }
    requires targets { AllByRecursion (λ t. IsTarget t.from t) targets.now }
    requires distinct { IsDistinct (eq_by_cmp (slice_cmp nat_cmp)) (map to_of targets.now) }
    requires empty { HoldsNothing (V.files out.old) }
    ensures put { IfOk result (λ rows.
        PutsFiles (IsContent (chain_told V.Vault areas.old places.now)) targets.now
        modified.now (V.files out.new) rows.items) }
    ensures reads { AllOnlyRead V.Vault areas.old areas.new }
    ensures spares { SparesManifest V.Vault out.old out.new }
    ensures cause { IfErr result (WriteCause V.Vault areas.old out.old areas.new out.new) }
{
    let mut rows = Vec::new(alloc);
    let mut buffer = zeros();
    let mut left = targets;
    while let Some((target, behind)) = left.split_first() {
        put_file(
            alloc,
            areas,
            places,
            place,
            target,
            out,
            &mut buffer,
            modified,
            &mut rows,
        )?;
        left = behind;
    }
    Ok(rows)
}
