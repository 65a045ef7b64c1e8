//! Which files stand for those of the newest member.

ghost use Rattle.std.specs.Prelude.{◌≡◌, ◌≢◌, ℕ, List, IfOk};
ghost use Rattle.backup_files.specs.Directory.{manifest_name};
ghost use Rattle.combine.specs.Calls.{IsPathFor};
ghost use Rattle.combine.specs.Combined.{other_rows};
ghost use Rattle.combine.specs.Inside.{AreTargets, IsTarget};

use backup_files::MANIFEST;
use chain_files::{file_path, incremental};
use directory_files::Target;
use lsn_core::{NoMemory, Text};
use manifest::FileRow;
use std::alloc::Global;

/// The path of the file that stands for that of a path.
fn path_for(alloc: Global, path: &[u8]) -> Result<Text, NoMemory>
    requires { path.now ≢ manifest_name }
    ensures path { IfOk result (IsPathFor path.now) }
    ensures only { IfOk result (λ to. (other : List ℕ) → IsPathFor path.now other → other ≡ to) }
    ensures other { IfOk result (λ to. to ≢ manifest_name) }
{
    match incremental(path) {
        Some((folder, name)) => file_path(alloc, folder, name, false),
        None => Text::copied(alloc, path),
    }
}

/// A file with the path of the one that stands for it.
fn target_of(alloc: Global, path: &[u8]) -> Result<Target, NoMemory>
    requires { path.now ≢ manifest_name }
    ensures { IfOk result (IsTarget path.now) }
{
    let to = path_for(alloc, path)?;
    let from = Text::copied(alloc, path)?;
    Ok(Target { from, to })
}

/// The files of rows, in their order, but the manifest.
pub(crate) fn targets_of(alloc: Global, rows: &[FileRow]) -> Result<Vec<Target>, NoMemory>
    ensures { IfOk result (λ targets. AreTargets (other_rows rows.now) targets.items) }
{
    let mut targets = Vec::new(alloc);
    let mut left = rows;
    while let Some((row, behind)) = left.split_first() {
        let path = row.path.as_bytes();
        if path != MANIFEST {
            targets.push(target_of(alloc, path)?)?;
        }
        left = behind;
    }
    Ok(targets)
}
