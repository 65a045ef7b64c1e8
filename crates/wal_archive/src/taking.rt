//! Bytes of the archive that an entry needs, and why one isn't held.

ghost use Rattle.std.specs.Prelude.{◌≡◌, ◌+◌, ◌-◌, ◌*◌, ◌/◌, ◌%◌, ◌^◌, ◌≤◌, ◌<◌, ℕ, length, nat_lt, nat_le, IfOk, IfSome, Result, Ok};
ghost use Rattle.lsn_core.specs.Causes.{HasCause};
ghost use Rattle.lsn_core.specs.Segment.{segment_bytes};
ghost use Rattle.wal_pages.specs.Places.{head_size};
ghost use Rattle.lsn_core.specs.Sizes.{page_size};
ghost use Rattle.vault.specs.Frame.{OnlyReads};
ghost use Rattle.wal_archive.specs.Reading.{TakesFrom, IsNotHeld};

use crate::ends::is_held_from;
use crate::fault::{Broken, Damage, ReadFault};
use crate::run::{run_on_page, segment_of};
use crate::segments::held_size;
use lsn_core::{AreaFault, Lsn, SegSize};
use std::alloc::Global;
use vault::Vault;

/// Why a byte isn't held, for an entry or a page head that is said to begin at a place.
pub fn why_missing<V: Vault>(
    alloc: Global,
    area: &mut V,
    size: SegSize,
    begin: u64,
    x: u64,
) -> Result<Damage, AreaFault>
    ensures why { IfOk result (IsNotHeld size (V.files area.old) begin x) }
    ensures reads { OnlyReads V.Vault area.old area.new }
    ensures cause { HasCause (V.faults area.old) (V.faults area.new) result }
{
    if !is_held_from(alloc, area, size, x)? {
        return Ok(Damage::Broken(Lsn(begin), Broken::Torn));
    }
    let number = segment_of(x, size);
    match held_size(alloc, area, size, number)? {
        Some(count) => Ok(Damage::Broken(Lsn(number * size.bytes() + count), Broken::SegSize)),
        None => Ok(Damage::Missing(number)),
    }
}

/// Reads bytes that an entry or a head needs, all on one page.
pub fn take_bytes<V: Vault>(
    alloc: Global,
    area: &mut V,
    size: SegSize,
    begin: u64,
    x: u64,
    into: &mut [u8],
) -> Result<(), ReadFault>
    requires { x % page_size + length into.old ≤ page_size }
    ensures length { length into.new ≡ length into.old }
    ensures bytes { TakesFrom V.Vault size area.old area.new begin x into.new result }
    ensures reads { OnlyReads V.Vault area.old area.new }
{
    let count = run_on_page(alloc, area, size, x, into)?;
    if count as usize == into.len() {
        return Ok(());
    }
    let damage = why_missing(alloc, area, size, begin, x + u64::from(count))?;
    Err(ReadFault::Bad(damage))
}
