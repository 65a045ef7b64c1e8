//! Whether the archive ends at a place.

ghost use Rattle.std.specs.Prelude.{◌≡◌, ◌%◌, ◌^◌, ◌≤◌, false, Some, Ok, IfOk};
ghost use Rattle.lsn_core.specs.Sizes.{page_size};
ghost use Rattle.vault.specs.Frame.{OnlyReads};
ghost use Rattle.wal_archive.specs.Rules.{is_ok, head_at};
ghost use Rattle.wal_archive.specs.Reading.{TellsZero, TellsPass, TellsHeadEnd, TellsEnded};

use crate::ends::{is_held_from, is_marked_from};
use crate::fault::{Damage, ReadFault};
use crate::heads::pass_head;
use crate::run::segment_of;
use crate::segments::held_size;
use lsn_core::{PAGE, SegSize};
use std::alloc::Global;
use vault::Vault;
use wal_pages::head_size;

/// Whether all that is held from a place on is zero. `Missing` where something is held, but the
/// place's segment has no file.
pub fn is_zero_from<V: Vault>(
    alloc: Global,
    area: &mut V,
    size: SegSize,
    e: u64,
) -> Result<bool, ReadFault>
    ensures zeros { TellsZero V.Vault size area.old area.new e result }
    ensures reads { OnlyReads V.Vault area.old area.new }
{
    if !is_held_from(alloc, area, size, e)? {
        return Ok(true);
    }
    let number = segment_of(e, size);
    if held_size(alloc, area, size, number)?.is_none() {
        return Err(ReadFault::Bad(Damage::Missing(number)));
    }
    let marked = is_marked_from(alloc, area, size, e)?;
    Ok(!marked)
}

/// Whether the head of the page that begins at a place passes with nothing continued.
fn passes<V: Vault>(
    alloc: Global,
    area: &mut V,
    size: SegSize,
    system: u64,
    page: u64,
) -> Result<bool, ReadFault>
    requires { page % page_size ≡ 0 }
    ensures passes { TellsPass V.Vault size system area.old area.new page result }
    ensures reads { OnlyReads V.Vault area.old area.new }
{
    match pass_head(alloc, area, size, system, page, page, Some(0)) {
        Ok(()) => Ok(true),
        Err(ReadFault::Bad(_)) => Ok(false),
        Err(fault) => Err(fault),
    }
}

/// Whether a page begins at a place, its head passes with nothing continued, and all that is held
/// behind that is zero.
fn ends_with_head<V: Vault>(
    alloc: Global,
    area: &mut V,
    size: SegSize,
    system: u64,
    e: u64,
) -> Result<bool, ReadFault>
    requires { e ≤ 2 ^ 53 }
    ensures ends { TellsHeadEnd V.Vault size system area.old area.new e result }
    ensures reads { OnlyReads V.Vault area.old area.new }
{
    if e % PAGE != 0 {
        return Ok(false);
    }
    let passed = match passes(alloc, area, size, system, e) {
        Ok(passed) => passed,
        Err(fault) => return Err(fault),
    };
    if !passed {
        return Ok(false);
    }
    let marked = is_marked_from(alloc, area, size, e + head_size(size, e))?;
    Ok(!marked)
}

/// Whether the archive ends at a place: all that is held from there on is zero, but for the head of
/// a page that begins there.
pub fn is_end<V: Vault>(
    alloc: Global,
    area: &mut V,
    size: SegSize,
    system: u64,
    e: u64,
) -> Result<bool, ReadFault>
    requires { e ≤ 2 ^ 53 }
    ensures end { TellsEnded V.Vault size system area.old area.new e result }
    ensures reads { OnlyReads V.Vault area.old area.new }
{
    let zeros = match is_zero_from(alloc, area, size, e) {
        Ok(zeros) => zeros,
        Err(fault) => return Err(fault),
    };
    if zeros {
        return Ok(true);
    }
    ends_with_head(alloc, area, size, system, e)
}
