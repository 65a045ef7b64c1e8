//! Which files stand for those of the newest member.

ghost use Rattle.std.specs.Prelude.{◌≡◌, ◌≢◌, true, length, IfOk, IfErr};
ghost use Rattle.backup_files.specs.Directory.{manifest_name};
ghost use Rattle.chain_files.specs.Paths.{IsIncrementalPath};
ghost use Rattle.chain_files.specs.Sources.{OfChain};
ghost use Rattle.chain_files.specs.Told.{chain_told, ArePlaces, AllOnlyRead};
ghost use Rattle.directory_files.specs.Relisted.{other_rows};
ghost use Rattle.incr_merge.specs.Calls.{IsMergedPath};
ghost use Rattle.incr_merge.specs.Inside.{AreTargets, IsTarget, ReadCause};

use backup_files::MANIFEST;
use chain_files::{file_path, incremental};
use directory_files::{Target, WriteFault};
use lsn_core::Text;
use manifest::FileRow;
use series_files::is_rebuilt;
use std::alloc::Global;
use vault::{Held, Vault};

/// The path of the file that stands for that of a path: the plain one where the series rebuilds the
/// file.
fn path_for<V: Vault>(
    alloc: Global,
    areas: &mut [Held<V>],
    places: &[u32],
    path: &[u8],
) -> Result<Text, WriteFault>
    requires places { ArePlaces (length areas.old) places.now }
    requires other { path.now ≢ manifest_name }
    ensures path { IfOk result (λ to. OfChain (chain_told V.Vault areas.old places.now) (λ series.
        IsMergedPath series path.now to)) }
    ensures kept { IfOk result (λ to. (IsIncrementalPath path.now → ⊥) → to ≡ path.now) }
    ensures other { IfOk result (λ to. to ≢ manifest_name) }
    ensures reads { AllOnlyRead V.Vault areas.old areas.new }
    ensures cause { IfErr result (ReadCause V.Vault areas.old areas.new) }
{
    let Some((folder, name)) = incremental(path) else {
        return Ok(Text::copied(alloc, path)?);
    };
    let whole = is_rebuilt(alloc, areas, places, folder, name)?;
    Ok(file_path(alloc, folder, name, !whole)?)
}

/// A file with the path of the one that stands for it.
fn target_of<V: Vault>(
    alloc: Global,
    areas: &mut [Held<V>],
    places: &[u32],
    path: &[u8],
) -> Result<Target, WriteFault>
    requires places { ArePlaces (length areas.old) places.now }
    requires other { path.now ≢ manifest_name }
    ensures target { IfOk result (IsTarget (chain_told V.Vault areas.old places.now) path.now) }
    ensures reads { AllOnlyRead V.Vault areas.old areas.new }
    ensures cause { IfErr result (ReadCause V.Vault areas.old areas.new) }
{
    let to = path_for(alloc, areas, places, path)?;
    let from = Text::copied(alloc, path)?;
    Ok(Target { from, to })
}

/// The files of rows, in their order, but the manifest.
pub(crate) fn targets_of<V: Vault>(
    alloc: Global,
    areas: &mut [Held<V>],
    places: &[u32],
    rows: &[FileRow],
) -> Result<Vec<Target>, WriteFault>
    requires { ArePlaces (length areas.old) places.now }
    ensures targets { IfOk result (λ targets. AreTargets
        (chain_told V.Vault areas.old places.now) (other_rows rows.now) targets.items) }
    ensures reads { AllOnlyRead V.Vault areas.old areas.new }
    ensures cause { IfErr result (ReadCause V.Vault areas.old areas.new) }
{
    let mut targets = Vec::new(alloc);
    let mut left = rows;
    while let Some((row, behind)) = left.split_first() {
        let path = row.path.as_bytes();
        if path != MANIFEST {
            targets.push(target_of(alloc, areas, places, path)?)?;
        }
        left = behind;
    }
    Ok(targets)
}
