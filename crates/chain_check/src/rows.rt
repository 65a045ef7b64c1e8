//! The files that a manifest lists: first their sizes, then the sums of the rows before the first
//! whose file isn't of its size.

ghost use Rattle.std.specs.Prelude.{◌≡◌, ◌≢◌, ◌^◌, ◌<◌, ◌≤◌, length, slice_index_or};
ghost use Rattle.std.specs.Prelude.{Some, None, IfOk, IfSome};
ghost use Rattle.std.specs.List.{AllByRecursion};
ghost use Rattle.lsn_core.specs.Causes.{HasCause};
ghost use Rattle.vault.specs.Frame.{OnlyReads};
ghost use Rattle.chain_check.specs.declared.fault.ChainFault.TheVariants as chain;
ghost use Rattle.chain_check.specs.Refusals.{row_fault, FailsRisen, RefusesRisen};
ghost use Rattle.chain_check.specs.Inside.{Answers, RowsAnswer};
ghost use Rattle.file_sums.specs.LaneSums.{Knows, AreKnown};
ghost use Rattle.chain_check.specs.Sizes.{IsSized, SizeAnswer, SizesAnswer};

use crate::fault::ChainFault;
use crate::refusal::Refusal;
use file_sums::{has_sum, lane_sums};
use lsn_core::byte_words::zeros;
use lsn_core::{AreaFault, Text};
use manifest::FileRow;
use std::alloc::Global;
use vault::Vault;

/// How many bytes of a file are read at once where it is hashed alone: 64 KiB.
const PIECE: usize = 65536;

/// What is wrong with the size of a row's file, if anything.
fn size_fault<V: Vault>(
    alloc: Global,
    area: &mut V,
    row: &FileRow,
) -> Result<Option<ChainFault>, AreaFault>
    ensures answer { IfOk result (λ found. IfSome (V.files area.old) (λ m.
        SizeAnswer m row.now found)) }
    ensures file { IfOk result (λ found. found ≢ Some chain.Failed) }
    ensures reads { OnlyReads V.Vault area.old area.new }
    ensures cause { HasCause (V.faults area.old) (V.faults area.new) result }
{
    let path = row.path.as_bytes();
    let Some(have) = area.size(path)? else {
        return Ok(Some(ChainFault::FileMissing(Text::copied(alloc, path)?)));
    };
    if have != row.size {
        let path = Text::copied(alloc, path)?;
        return Ok(Some(ChainFault::FileSize(path, have, row.size)));
    }
    Ok(None)
}

/// How many rows stand before the first whose file isn't there or has another size, and what is
/// wrong with it; all of them, where there is none.
fn sized_rows<V: Vault>(
    alloc: Global,
    area: &mut V,
    rows: &[FileRow],
) -> Result<(usize, Option<ChainFault>), AreaFault>
    ensures within { IfOk result (λ found. found.0 ≤ length rows.now) }
    ensures answer { IfOk result (λ found. IfSome (V.files area.old) (λ m.
        SizesAnswer m rows.now found.0 found.1)) }
    ensures file { IfOk result (λ found. found.1 ≢ Some chain.Failed) }
    ensures reads { OnlyReads V.Vault area.old area.new }
    ensures cause { HasCause (V.faults area.old) (V.faults area.new) result }
{
    let mut left = rows;
    let mut sized = 0;
    while let Some((row, behind)) = left.split_first() {
        if let Some(fault) = size_fault(alloc, area, row)? {
            return Ok((sized, Some(fault)));
        }
        left = behind;
        sized += 1;
    }
    Ok((sized, None))
}

/// Errs where the file of a row, which has its size, has another sum. What is known of the sum
/// isn't asked again.
fn check_sum<V: Vault>(
    alloc: Global,
    area: &mut V,
    row: &FileRow,
    known: Option<bool>,
    buffer: &mut [u8],
) -> Result<(), ChainFault>
    requires some { 0 < length buffer.old }
    requires most { length buffer.old ≤ 2 ^ 20 }
    ensures answer { IfSome (V.files area.old) (λ m. IsSized m row.now
        → Knows m row.now known → Answers (row_fault m row.now) result) }
    ensures reads { OnlyReads V.Vault area.old area.new }
    ensures cause { FailsRisen (V.faults area.old) (V.faults area.new) result }
{
    let same = match known {
        Some(same) => same,
        None => has_sum(alloc, area, row, buffer)?,
    };
    if !same {
        return Err(ChainFault::FileSum(Text::copied(alloc, row.path.as_bytes())?));
    }
    Ok(())
}

/// What is known of a row of this place.
fn known_at(known: &[Option<bool>], place: usize) -> Option<bool>
    ensures { result ≡ slice_index_or known.now place None }
{
    if place < known.len() {
        return known[place];
    }
    None
}

/// Errs with the first row, in their order, whose file has another sum, and with how many rows
/// stand before it, where each file has its size.
fn check_each<V: Vault>(
    alloc: Global,
    area: &mut V,
    rows: &[FileRow],
    known: &[Option<bool>],
    buffer: &mut [u8],
) -> Result<(), Refusal>
    requires some { 0 < length buffer.old }
    requires most { length buffer.old ≤ 2 ^ 20 }
    ensures answer { IfSome (V.files area.old) (λ m. AllByRecursion (IsSized m) rows.now
        → AreKnown m rows.now known.now → RowsAnswer m rows.now result) }
    ensures reads { OnlyReads V.Vault area.old area.new }
    ensures cause { RefusesRisen (V.faults area.old) (V.faults area.new) result }
{
    let mut left = rows;
    let mut checked = 0;
    while let Some((row, behind)) = left.split_first() {
        let same = known_at(known, checked);
        if let Err(fault) = check_sum(alloc, area, row, same, buffer) {
            let checked = checked as u64;
            return Err(Refusal { fault, checked });
        }
        left = behind;
        checked += 1;
    }
    Ok(())
}

/// The same, four files side by side as far as that is faster.
fn check_sums<V: Vault>(alloc: Global, area: &mut V, rows: &[FileRow]) -> Result<(), Refusal>
    ensures answer { IfSome (V.files area.old) (λ m. AllByRecursion (IsSized m) rows.now
        → RowsAnswer m rows.now result) }
    ensures reads { OnlyReads V.Vault area.old area.new }
    ensures cause { RefusesRisen (V.faults area.old) (V.faults area.new) result }
{
    let known = lane_sums(alloc, area, rows)?;
    let mut buffer = zeros(alloc, PIECE)?;
    check_each(alloc, area, rows, &known, &mut buffer)
}

/// Errs with the first row, in their order, whose file isn't as listed, and with how many rows
/// stand before it.
pub(crate) fn check_rows<V: Vault>(
    alloc: Global,
    area: &mut V,
    rows: &[FileRow],
) -> Result<(), Refusal>
    ensures answer { IfSome (V.files area.old) (λ m. RowsAnswer m rows.now result) }
    ensures reads { OnlyReads V.Vault area.old area.new }
    ensures cause { RefusesRisen (V.faults area.old) (V.faults area.new) result }
{
    let (sized, fault) = sized_rows(alloc, area, rows)?;
    check_sums(alloc, area, &rows[..sized])?;
    match fault {
        Some(fault) => Err(Refusal {
            fault,
            checked: sized as u64,
        }),
        None => Ok(()),
    }
}
