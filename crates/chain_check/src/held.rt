//! Incremental files, and whether a backup has them in one of their forms.

ghost use Rattle.std.specs.Prelude.{◌≡◌, true, false, IfOk};
ghost use Rattle.std.specs.Ordering.{nat_cmp};
ghost use Rattle.std.specs.Cmp.Lexicographic.{slice_cmp};
ghost use Rattle.std.specs.List.Sorted.{IsSortedByKey};
ghost use Rattle.chain_check.specs.Directory.{is_listed};
ghost use Rattle.chain_check.specs.Chain.{IsHeld};
ghost use Rattle.chain_check.specs.Inside.{path_of, HeldAnswer};

use crate::extra::is_listed;
use crate::link::LinkFault;
use chain_files::{file_path, incremental};
use lsn_core::{NoMemory, Text};
use manifest::FileRow;
use std::alloc::Global;

/// Whether the paths of rows rise, as those of a manifest that was read do.
fn is_rising(rows: &[FileRow]) -> bool
    ensures { result ≡ true → IsSortedByKey path_of (slice_cmp nat_cmp) rows.now }
{
    rows.is_sorted_by(|a, b| a.path.as_bytes().cmp(b.path.as_bytes()).is_lt())
}

/// Whether a row has this path. Rows whose paths rise are searched by halves.
fn has_path(rows: &[FileRow], rising: bool, path: &[u8]) -> bool
    requires { rising ≡ true → IsSortedByKey path_of (slice_cmp nat_cmp) rows.now }
    ensures { result ≡ is_listed rows.now path.now }
{
    if rising {
        is_listed(rows, path)
    } else {
        rows.iter().any(|row| row.path.as_bytes() == path)
    }
}

/// Whether a file of this path can be rebuilt from a backup with these rows, whose paths rise or
/// not.
fn is_held(alloc: Global, rows: &[FileRow], rising: bool, path: &[u8]) -> Result<bool, NoMemory>
    requires { rising ≡ true → IsSortedByKey path_of (slice_cmp nat_cmp) rows.now }
    ensures held { IfOk result (λ held. held ≡ true → IsHeld rows.now path.now) }
    ensures lacks { IfOk result (λ held. held ≡ false → IsHeld rows.now path.now → ⊥) }
{
    let Some((folder, name)) = incremental(path) else {
        return Ok(true);
    };
    if has_path(rows, rising, path) {
        return Ok(true);
    }
    let plain = file_path(alloc, folder, name, false)?;
    Ok(has_path(rows, rising, plain.as_bytes()))
}

/// Errs with the first of some rows, in their order, whose file can't be rebuilt from a backup with
/// other rows.
pub(crate) fn check_held(alloc: Global, held: &[FileRow], rows: &[FileRow]) -> Result<(), LinkFault>
    ensures { HeldAnswer held.now rows.now result }
{
    let rising = is_rising(held);
    let mut left = rows;
    while let Some((row, behind)) = left.split_first() {
        if !is_held(alloc, held, rising, row.path.as_bytes())? {
            let path = Text::copied(alloc, row.path.as_bytes())?;
            return Err(LinkFault::NoPriorFile(path));
        }
        left = behind;
    }
    Ok(())
}
