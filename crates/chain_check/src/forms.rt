//! The forms of files.

ghost use Rattle.std.specs.Prelude.{◌≡◌, true, IfOk, IfSome};
ghost use Rattle.lsn_core.specs.Causes.{HasCause};
ghost use Rattle.chain_files.specs.Paths.{file_path, IsRelationFile};
ghost use Rattle.vault.specs.Area.{bytes_of};
ghost use Rattle.vault.specs.Frame.{OnlyReads};
ghost use Rattle.chain_check.specs.Refusals.{FailsRisen};
ghost use Rattle.chain_check.specs.Inside.{FormsAnswer, FormWhy, HeadWhy};

use crate::fault::{ChainFault, FileWhy};
use chain_files::{file_path, incremental, is_fork_file, read_head};
use incr_file::HeadFault;
use lsn_core::{AreaFault, PAGE, Text};
use manifest::FileRow;
use std::alloc::Global;
use vault::Vault;

/// What is wrong with the head of a row's file, if anything.
fn head_why<V: Vault>(
    alloc: Global,
    area: &mut V,
    row: &FileRow,
) -> Result<Option<FileWhy>, AreaFault>
    ensures why { IfOk result (λ why. IfSome (V.files area.old) (λ m.
        HeadWhy (bytes_of m row.now.path) row.now.size why)) }
    ensures reads { OnlyReads V.Vault area.old area.new }
    ensures cause { HasCause (V.faults area.old) (V.faults area.new) result }
{
    match read_head(alloc, area, row.path.as_bytes(), row.size)? {
        Ok(_) => Ok(None),
        Err(HeadFault::Length) => Ok(Some(FileWhy::Length)),
        Err(HeadFault::Magic) => Ok(Some(FileWhy::Magic)),
        Err(HeadFault::Range) => Ok(Some(FileWhy::Range)),
        Err(HeadFault::Order) => Ok(Some(FileWhy::Order)),
        Err(HeadFault::NoMemory) => Err(AreaFault::NoMemory),
    }
}

/// What is wrong with a row's file, an incremental one of this folder and plain name, if anything.
fn incremental_fault<V: Vault>(
    alloc: Global,
    area: &mut V,
    row: &FileRow,
    folder: &[u8],
    name: &[u8],
) -> Result<Option<FileWhy>, AreaFault>
    requires placed { IsRelationFile folder.now name.now }
    requires spelled { row.now.path ≡ file_path folder.now name.now true }
    ensures why { IfOk result (λ why. IfSome (V.files area.old) (λ m. FormWhy m row.now why)) }
    ensures reads { OnlyReads V.Vault area.old area.new }
    ensures cause { HasCause (V.faults area.old) (V.faults area.new) result }
{
    let plain = file_path(alloc, folder, name, false)?;
    if area.size(plain.as_bytes())?.is_some() {
        return Ok(Some(FileWhy::Both));
    }
    head_why(alloc, area, row)
}

/// What is wrong with the form of a row's file, if anything.
fn form_fault<V: Vault>(
    alloc: Global,
    area: &mut V,
    row: &FileRow,
) -> Result<Option<FileWhy>, AreaFault>
    ensures why { IfOk result (λ why. IfSome (V.files area.old) (λ m. FormWhy m row.now why)) }
    ensures reads { OnlyReads V.Vault area.old area.new }
    ensures cause { HasCause (V.faults area.old) (V.faults area.new) result }
{
    if let Some((folder, name)) = incremental(row.path.as_bytes()) {
        return incremental_fault(alloc, area, row, folder, name);
    }
    if !is_fork_file(row.path.as_bytes()) {
        return Ok(None);
    }
    if row.size % PAGE as u64 != 0 {
        return Ok(Some(FileWhy::PageLength));
    }
    Ok(None)
}

/// Errs with the first row, in their order, whose file hasn't its form.
pub(crate) fn check_forms<V: Vault>(
    alloc: Global,
    area: &mut V,
    rows: &[FileRow],
) -> Result<(), ChainFault>
    ensures answer { IfSome (V.files area.old) (λ m. FormsAnswer m rows.now result) }
    ensures reads { OnlyReads V.Vault area.old area.new }
    ensures cause { FailsRisen (V.faults area.old) (V.faults area.new) result }
{
    let mut left = rows;
    while let Some((row, behind)) = left.split_first() {
        if let Some(why) = form_fault(alloc, area, row)? {
            let path = Text::copied(alloc, row.path.as_bytes())?;
            return Err(ChainFault::FileDamaged(path, why));
        }
        left = behind;
    }
    Ok(())
}
