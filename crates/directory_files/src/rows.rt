//! The rows of files that were written.

ghost use Rattle.std.specs.Prelude.{◌≡◌, ◌<◌, ◌^◌, ℕ, List, ◌++◌, ◌∷◌, [], length, OnOk};
ghost use Rattle.backup_files.specs.Directory.{row_of};
ghost use Rattle.directory_files.specs.Written.{Holds};

use crate::growing::Growing;
use backup_files::file_row;
use lsn_core::{NoMemory, Text};
use manifest::FileRow;
use std::alloc::Global;

/// Lists a file that was written under this path, modified at a moment.
pub fn list_file(
    alloc: Global,
    to: &[u8],
    file: Growing,
    modified: &Text,
    rows: &mut Vec<FileRow>,
) -> Result<(), NoMemory>
    ensures fits { OnOk result ((bytes : List ℕ) → Holds file bytes → length bytes < 2 ^ 64) }
    ensures listed { OnOk result ((bytes : List ℕ) → Holds file bytes
        → rows.new.items ≡ rows.old.items ++ (row_of modified.now (to.now, bytes) ∷ [])) }
{
    let size = file.size();
    let sum = file.sum();
    let path = Text::copied(alloc, to)?;
    rows.push(file_row(alloc, path, size, modified, &sum)?)?;
    Ok(())
}
