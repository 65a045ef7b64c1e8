//! The files of a merged backup, one after the other.

ghost use Rattle.std.specs.Prelude.{◌≡◌, ◌≢◌, ◌<◌, ◌≤◌, length, map, IfOk, IfErr, OnOk};
ghost use Rattle.std.specs.List.{AllByRecursion, IsDistinct};
ghost use Rattle.std.specs.Ordering.{nat_cmp, eq_by_cmp};
ghost use Rattle.std.specs.Cmp.Lexicographic.{slice_cmp};
ghost use Rattle.backup_files.specs.Directory.{manifest_name};
ghost use Rattle.backup_files.specs.Area.{HoldsNothing, Lacks, SparesManifest};
ghost use Rattle.chain_files.specs.Paths.{IsRelationFile};
ghost use Rattle.chain_files.specs.Segments.{forms_at};
ghost use Rattle.chain_files.specs.Sources.{OfChain};
ghost use Rattle.chain_files.specs.Told.{chain_told, ArePlaces, AllOnlyRead};
ghost use Rattle.directory_files.specs.Faults.{WriteCause};
ghost use Rattle.directory_files.specs.Written.{IsMade, PutsFile, PutsFiles, to_of};
ghost use Rattle.merged_forms.specs.Merged.{rests_on_plain};
ghost use Rattle.incr_merge.specs.Inside.{IsContent, IsJoined, IsKept, IsTarget};

use crate::label::write_label;
use crate::parts::merge_file;
use chain_files::incremental;
use directory_files::{Growing, Target, WriteFault, copy_file, list_file, rebuild_file};
use lsn_core::Text;
use manifest::FileRow;
use series_files::is_rebuilt;
use std::alloc::Global;
use vault::{Held, Vault};

/// The path of the label.
const LABEL: &[u8] = b"backup_label";

/// Writes the file that stands for one that isn't incremental.
fn keep_file<V: Vault>(
    alloc: Global,
    areas: &mut [Held<V>],
    places: &[u32],
    path: &[u8],
    out: &mut V,
    buffer: &mut [u8; 65536],
) -> Result<Growing, WriteFault>
    requires places { ArePlaces (length areas.old) places.now }
    requires some { 1 ≤ length places.now }
    requires other { path.now ≢ manifest_name }
    requires missing { Lacks (V.files out.old) path.now }
    ensures made { IfOk result (IsMade
        (IsKept (chain_told V.Vault areas.old places.now) path.now)
        path.now (V.files out.old) (V.files out.new)) }
    ensures reads { AllOnlyRead V.Vault areas.old areas.new }
    ensures spares { SparesManifest V.Vault out.old out.new }
    ensures cause { IfErr result (WriteCause V.Vault areas.old out.old areas.new out.new) }
{
    let newest = places[places.len() - 1];
    if path == LABEL {
        return write_label(alloc, areas, places[0], newest, path, out);
    }
    copy_file(areas, newest, path, out, buffer)
}

/// Writes the file that stands for an incremental one, whole or incremental.
fn join_file<V: Vault>(
    alloc: Global,
    areas: &mut [Held<V>],
    places: &[u32],
    folder: &[u8],
    name: &[u8],
    path: &[u8],
    out: &mut V,
    buffer: &mut [u8; 65536],
) -> Result<Growing, WriteFault>
    requires places { ArePlaces (length areas.old) places.now }
    requires placed { IsRelationFile folder.now name.now }
    requires other { path.now ≢ manifest_name }
    requires missing { Lacks (V.files out.old) path.now }
    ensures made { IfOk result (IsMade
        (λ bytes. OfChain (chain_told V.Vault areas.old places.now) (λ series.
        IsJoined series folder.now name.now
        (rests_on_plain (forms_at series folder.now name.now)) bytes))
        path.now (V.files out.old) (V.files out.new)) }
    ensures reads { AllOnlyRead V.Vault areas.old areas.new }
    ensures spares { SparesManifest V.Vault out.old out.new }
    ensures cause { IfErr result (WriteCause V.Vault areas.old out.old areas.new out.new) }
{
    if is_rebuilt(alloc, areas, places, folder, name)? {
        return rebuild_file(alloc, areas, places, folder, name, path, out, buffer);
    }
    merge_file(alloc, areas, places, folder, name, path, out, buffer)
}

/// Writes the file that stands for one of the newest member.
fn make_file<V: Vault>(
    alloc: Global,
    areas: &mut [Held<V>],
    places: &[u32],
    target: &Target,
    out: &mut V,
    buffer: &mut [u8; 65536],
) -> Result<Growing, WriteFault>
    requires places { ArePlaces (length areas.old) places.now }
    requires some { 1 ≤ length places.now }
    requires target { IsTarget (chain_told V.Vault areas.old places.now) target.now.from
        target.now }
    requires missing { Lacks (V.files out.old) target.now.to }
    ensures made { IfOk result (IsMade
        (IsContent (chain_told V.Vault areas.old places.now) target.now)
        target.now.to (V.files out.old) (V.files out.new)) }
    ensures reads { AllOnlyRead V.Vault areas.old areas.new }
    ensures spares { SparesManifest V.Vault out.old out.new }
    ensures cause { IfErr result (WriteCause V.Vault areas.old out.old areas.new out.new) }
{
    let to = target.to.as_bytes();
    match incremental(target.from.as_bytes()) {
        Some((folder, name)) => join_file(alloc, areas, places, folder, name, to, out, buffer),
        None => keep_file(alloc, areas, places, to, out, buffer),
    }
}

/// Writes the file that stands for one of the newest member, and lists it.
fn put_file<V: Vault>(
    alloc: Global,
    areas: &mut [Held<V>],
    places: &[u32],
    target: &Target,
    out: &mut V,
    buffer: &mut [u8; 65536],
    modified: &Text,
    rows: &mut Vec<FileRow>,
) -> Result<(), WriteFault>
    requires places { ArePlaces (length areas.old) places.now }
    requires some { 1 ≤ length places.now }
    requires target { IsTarget (chain_told V.Vault areas.old places.now) target.now.from
        target.now }
    requires missing { Lacks (V.files out.old) target.now.to }
    ensures put { OnOk result (PutsFile
        (IsContent (chain_told V.Vault areas.old places.now) target.now) target.now.to
        modified.now (V.files out.old) (V.files out.new) rows.old.items rows.new.items) }
    ensures reads { AllOnlyRead V.Vault areas.old areas.new }
    ensures spares { SparesManifest V.Vault out.old out.new }
    ensures cause { IfErr result (WriteCause V.Vault areas.old out.old areas.new out.new) }
{
    let file = make_file(alloc, areas, places, target, out, buffer)?;
    list_file(alloc, target.to.as_bytes(), file, modified, rows)?;
    Ok(())
}

/// A buffer for a piece.
fn zeros() -> [u8; 65536] {
    [0; 65536]
}

/// Writes the files that stand for those of the newest member, and gives their rows.
pub(crate) fn put_files<V: Vault>(
    alloc: Global,
    areas: &mut [Held<V>],
    places: &[u32],
    targets: &[Target],
    out: &mut V,
    modified: &Text,
) -> Result<Vec<FileRow>, WriteFault>
    requires places { ArePlaces (length areas.old) places.now }
    requires some { 1 ≤ length places.now }
    requires targets { AllByRecursion
        (λ t. IsTarget (chain_told V.Vault areas.old places.now) t.from t) targets.now }
    requires distinct { IsDistinct (eq_by_cmp (slice_cmp nat_cmp)) (map to_of targets.now) }
    requires empty { HoldsNothing (V.files out.old) }
    ensures put { IfOk result (λ rows.
        PutsFiles (IsContent (chain_told V.Vault areas.old places.now)) targets.now
        modified.now (V.files out.new) rows.items) }
    ensures reads { AllOnlyRead V.Vault areas.old areas.new }
    ensures spares { SparesManifest V.Vault out.old out.new }
    ensures cause { IfErr result (WriteCause V.Vault areas.old out.old areas.new out.new) }
{
    let mut rows = Vec::new(alloc);
    let mut buffer = zeros();
    let mut left = targets;
    while let Some((target, behind)) = left.split_first() {
        put_file(
            alloc,
            areas,
            places,
            target,
            out,
            &mut buffer,
            modified,
            &mut rows,
        )?;
        left = behind;
    }
    Ok(rows)
}
