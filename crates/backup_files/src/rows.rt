//! The rows of a manifest.

ghost use Rattle.std.specs.Prelude.{◌≡◌, IfOk};
ghost use Rattle.std.specs.List.Sorted.{IsPermutation, IsSortedByKey};
ghost use Rattle.std.specs.Ordering.{nat_cmp};
ghost use Rattle.std.specs.Cmp.Lexicographic.{slice_cmp};
ghost use Rattle.backup_files.specs.Rows.{path_of, row_with};

use lsn_core::{NoMemory, Text};
use manifest::{FileRow, SumKind};
use std::alloc::Global;

/// The row of a file with this SHA-256 and so many bytes.
pub fn file_row(
    alloc: Global,
    path: Text,
    size: u64,
    modified: &Text,
    sum: &[u8; 32],
) -> Result<FileRow, NoMemory>
    ensures { IfOk result (λ row. row ≡ row_with path size modified.now sum.now) }
{
    let modified = Text::copied(alloc, modified.as_bytes())?;
    let sum = Text::from_vec(hex::encode(alloc, sum)?.into_bytes());
    Ok(FileRow {
        path,
        size,
        modified,
        kind: SumKind::Sha256,
        sum,
    })
}

/// Puts rows into the byte order of their paths.
pub fn sort_rows(rows: &mut Vec<FileRow>)
    ensures same { IsPermutation rows.old.items rows.new.items }
    ensures sorted { IsSortedByKey path_of (slice_cmp nat_cmp) rows.new.items }
{
    rows.sort_unstable_by(|a, b| a.path.as_bytes().cmp(b.path.as_bytes()));
}
