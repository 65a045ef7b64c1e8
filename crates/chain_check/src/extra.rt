//! Files that a manifest doesn't list.

ghost use Rattle.std.specs.Prelude.{◌≡◌, not, IfSome};
ghost use Rattle.std.specs.List.{find};
ghost use Rattle.std.specs.Option.{option_map};
ghost use Rattle.std.specs.Ordering.{nat_cmp};
ghost use Rattle.std.specs.Cmp.Lexicographic.{slice_cmp};
ghost use Rattle.std.specs.List.Sorted.{IsSortedByKey};
ghost use Rattle.vault.specs.Frame.{OnlyReads};
ghost use Rattle.chain_check.specs.Directory.{is_listed, may_stand};
ghost use Rattle.chain_check.specs.Refusals.{label_row_fault, extra_fault, FailsRisen};
ghost use Rattle.chain_check.specs.Inside.{path_of, Answers, NeverFails};

use crate::fault::ChainFault;
use crate::label::LABEL;
use backup_files::MANIFEST;
use lsn_core::Text;
use manifest::FileRow;
use std::alloc::Global;
use vault::Vault;

/// Whether rows, in byte order of their paths, have this path.
pub(crate) fn is_listed(rows: &[FileRow], path: &[u8]) -> bool
    requires { IsSortedByKey path_of (slice_cmp nat_cmp) rows.now }
    ensures { result ≡ is_listed rows.now path.now }
{
    rows.binary_search_by(|row| row.path.as_bytes().cmp(path))
        .is_ok()
}

/// Whether a file of this name may stand beside those of the rows.
fn may_stand(rows: &[FileRow], name: &[u8]) -> bool
    requires { IsSortedByKey path_of (slice_cmp nat_cmp) rows.now }
    ensures { result ≡ may_stand rows.now name.now }
{
    name == MANIFEST || name.starts_with(b"pg_wal/") || is_listed(rows, name)
}

/// The first of some names that may not stand beside the files of the rows.
fn first_extra<'a>(rows: &[FileRow], names: &'a [Text]) -> Option<&'a Text>
    requires { IsSortedByKey path_of (slice_cmp nat_cmp) rows.now }
    ensures { option_map (λ name. name.now) result
        ≡ find (λ name. not (may_stand rows.now name)) names.now }
{
    names.iter().find(|name| !may_stand(rows, name.as_bytes()))
}

/// Errs where the label isn't listed.
pub(crate) fn check_label_row(alloc: Global, rows: &[FileRow]) -> Result<(), ChainFault>
    requires { IsSortedByKey path_of (slice_cmp nat_cmp) rows.now }
    ensures answer { Answers (label_row_fault rows.now) result }
    ensures memory { NeverFails result }
{
    if is_listed(rows, LABEL) {
        return Ok(());
    }
    Err(ChainFault::FileMissing(Text::copied(alloc, LABEL)?))
}

/// Errs with the first file, in byte order, that may not stand beside those of the rows.
pub(crate) fn check_extra<V: Vault>(
    alloc: Global,
    area: &mut V,
    rows: &[FileRow],
) -> Result<(), ChainFault>
    requires { IsSortedByKey path_of (slice_cmp nat_cmp) rows.now }
    ensures answer { IfSome (V.files area.old) (λ m. Answers (extra_fault m rows.now) result) }
    ensures reads { OnlyReads V.Vault area.old area.new }
    ensures cause { FailsRisen (V.faults area.old) (V.faults area.new) result }
{
    let names = area.names(alloc)?;
    match first_extra(rows, &names) {
        Some(name) => Err(ChainFault::FileExtra(Text::copied(alloc, name.as_bytes())?)),
        None => Ok(()),
    }
}
