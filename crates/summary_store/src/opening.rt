//! Which summaries are kept of an area's files.

ghost use Rattle.std.specs.Prelude.{◌≡◌, IfOk, OnOk, IfSome};
ghost use Rattle.lsn_core.specs.Causes.{HasCause};
ghost use Rattle.vault.specs.Frame.{OnlyReads};
ghost use Rattle.wal_summary.specs.Kept.{AreInOrder};
ghost use Rattle.summary_store.specs.Kept.{AreKept, end_behind};
ghost use Rattle.summary_store.specs.Inside.{HasRange, NamedAnswer, FoundIn, KeepsNext};

use lsn_core::{AreaFault, Lsn, NoMemory};
use std::alloc::Global;
use summary_file::{SummaryFault, decode_summary, is_name_of, range_in};
use vault::{Vault, read_whole};
use wal_summary::Summary;

/// The summaries that are kept of the files of an area (`specs/Kept.antt`), in order of their
/// ranges.
/// `Failed` comes only where the area's count of faults rose.
pub fn kept_in<V: Vault>(alloc: Global, area: &mut V) -> Result<Vec<Summary>, AreaFault>
    ensures kept { IfOk result (λ sums. IfSome (V.files area.old) (λ m. AreKept m sums.items)) }
    ensures order { IfOk result (λ sums. AreInOrder 0 sums.items) }
    ensures reads { OnlyReads V.Vault area.old area.new }
    ensures cause { HasCause (V.faults area.old) (V.faults area.new) result }
{
    let names = area.names(alloc)?;
    let mut sums = Vec::new(alloc);
    let mut left = names.as_slice();
    while let Some((name, behind)) = left.split_first() {
        keep_next(alloc, area, name.as_bytes(), &mut sums)?;
        left = behind;
    }
    Ok(sums)
}

/// Keeps one more file's summary, where it has one that starts at or past the end of the last one
/// kept.
fn keep_next<V: Vault>(
    alloc: Global,
    area: &mut V,
    name: &[u8],
    sums: &mut Vec<Summary>,
) -> Result<(), AreaFault>
    requires { AreInOrder 0 sums.old.items }
    ensures kept { OnOk result (IfSome (V.files area.old) (λ m.
        KeepsNext m name.now sums.old.items sums.new.items)) }
    ensures order { OnOk result (AreInOrder 0 sums.new.items) }
    ensures reads { OnlyReads V.Vault area.old area.new }
    ensures cause { HasCause (V.faults area.old) (V.faults area.new) result }
{
    let Some(sum) = summary_in(alloc, area, name)? else {
        return Ok(());
    };
    if end_behind(sums, Lsn(0)).0 <= sum.start.0 {
        sums.push(sum)?;
    }
    Ok(())
}

/// The end of the last one of some summaries; where there is none, a place before them.
pub fn end_behind(sums: &[Summary], low: Lsn) -> Lsn
    ensures { result.0 ≡ end_behind low.0 sums.now }
{
    match sums.last() {
        Some(sum) => sum.end,
        None => low,
    }
}

/// The summary of a file of an area that is a summary's file under the name of its range.
fn summary_in<V: Vault>(
    alloc: Global,
    area: &mut V,
    name: &[u8],
) -> Result<Option<Summary>, AreaFault>
    ensures found { IfOk result (λ found. IfSome (V.files area.old)
        (λ m. FoundIn m name.now found)) }
    ensures range { IfOk result (λ found. IfSome found HasRange) }
    ensures reads { OnlyReads V.Vault area.old area.new }
    ensures cause { HasCause (V.faults area.old) (V.faults area.new) result }
{
    if range_in(name).is_none() {
        return Ok(None);
    }
    let bytes = read_whole(alloc, area, name)?;
    let found = named_summary(alloc, name, &bytes)?;
    Ok(found)
}

/// The summary whose file has these bytes, where the name is that of its range's file.
fn named_summary(alloc: Global, name: &[u8], bytes: &[u8]) -> Result<Option<Summary>, NoMemory>
    ensures { IfOk result (NamedAnswer name.now bytes.now) }
{
    match decode_summary(alloc, bytes) {
        Ok(sum) if is_name_of(name, sum.start, sum.end) => Ok(Some(sum)),
        Ok(_) => Ok(None),
        Err(SummaryFault::Length) => Ok(None),
        Err(SummaryFault::Magic) => Ok(None),
        Err(SummaryFault::Sum) => Ok(None),
        Err(SummaryFault::Order) => Ok(None),
        Err(SummaryFault::NoMemory) => Err(NoMemory),
    }
}
