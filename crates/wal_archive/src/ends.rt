//! Where the held bytes of the archive end, and those other than zero, by a look at the names of
//! its files.

ghost use Rattle.std.specs.Prelude.{◌≡◌, ◌^◌, ◌<◌, ◌≤◌, IsTrue, IfOk, IfSome, length, nat_lt, ◌&&◌};
ghost use Rattle.lsn_core.specs.Causes.{HasCause};
ghost use Rattle.vault.specs.Frame.{OnlyReads};
ghost use Rattle.wal_archive.specs.Scanning.{HoldsPast, MarksPast, AreNames, IsHeldPast, IsMarkedPast};

use crate::segments::{held_size, segment_in};
use crate::zeros::{PIECE, are_zeros};
use lsn_core::byte_words::zeros;
use lsn_core::{AreaFault, SegSize, Text};
use std::alloc::Global;
use vault::Vault;

/// Whether so many bytes reach an end that is behind a place.
fn is_past(count: u64, end: u64, x: u64) -> bool
    ensures past { result ≡ (nat_lt 0 count && nat_lt x end) }
    ensures bound { IsTrue result → x < end }
{
    count > 0 && x < end
}

/// Whether the file of this name holds a byte of the archive at a place or behind it.
fn holds_past<V: Vault>(
    alloc: Global,
    area: &mut V,
    size: SegSize,
    name: &[u8],
    x: u64,
) -> Result<bool, AreaFault>
    ensures past { IfOk result (HoldsPast size (V.files area.old) x name.now) }
    ensures bound { IfOk result (λ past. IsTrue past → x < 2 ^ 51) }
    ensures reads { OnlyReads V.Vault area.old area.new }
    ensures cause { HasCause (V.faults area.old) (V.faults area.new) result }
{
    let Some(number) = segment_in(name, size) else {
        return Ok(false);
    };
    let begin = number * size.bytes();
    if begin + size.bytes() <= x {
        return Ok(false);
    }
    match held_size(alloc, area, size, number)? {
        Some(count) => Ok(is_past(count, begin + count, x)),
        None => Ok(false),
    }
}

/// Whether one of the files of these names holds a byte of the archive at a place or behind it.
fn any_holds_past<V: Vault>(
    alloc: Global,
    area: &mut V,
    size: SegSize,
    names: &[Text],
    x: u64,
) -> Result<bool, AreaFault>
    requires { AreNames (V.files area.old) names.now }
    ensures past { IfOk result (IsHeldPast size (V.files area.old) x) }
    ensures bound { IfOk result (λ past. IsTrue past → x < 2 ^ 51) }
    ensures reads { OnlyReads V.Vault area.old area.new }
    ensures cause { HasCause (V.faults area.old) (V.faults area.new) result }
{
    for name in names {
        if holds_past(alloc, area, size, name.as_bytes(), x)? {
            return Ok(true);
        }
    }
    Ok(false)
}

/// Whether a byte of the archive is held at a place or behind it.
pub fn is_held_from<V: Vault>(
    alloc: Global,
    area: &mut V,
    size: SegSize,
    x: u64,
) -> Result<bool, AreaFault>
    ensures held { IfOk result (IsHeldPast size (V.files area.old) x) }
    ensures bound { IfOk result (λ held. IsTrue held → x < 2 ^ 51) }
    ensures reads { OnlyReads V.Vault area.old area.new }
    ensures cause { HasCause (V.faults area.old) (V.faults area.new) result }
{
    let names = area.names(alloc)?;
    any_holds_past(alloc, area, size, &names, x)
}

/// Whether the file of this name holds a byte of the archive other than zero at a place or behind
/// it.
fn marks_past<V: Vault>(
    area: &mut V,
    size: SegSize,
    name: &[u8],
    x: u64,
    piece: &mut [u8],
) -> Result<bool, AreaFault>
    requires { length piece.old ≡ 65536 }
    ensures past { IfOk result (MarksPast size (V.files area.old) x name.now) }
    ensures piece { length piece.new ≡ 65536 }
    ensures reads { OnlyReads V.Vault area.old area.new }
    ensures cause { HasCause (V.faults area.old) (V.faults area.new) result }
{
    let Some(number) = segment_in(name, size) else {
        return Ok(false);
    };
    let limit = size.bytes();
    let from = x.saturating_sub(number * limit);
    if limit <= from {
        return Ok(false);
    }
    let zero = are_zeros(area, name, from, limit, piece)?;
    Ok(!zero)
}

/// Whether one of the files of these names holds a byte of the archive other than zero at a place
/// or behind it.
fn any_marks_past<V: Vault>(
    area: &mut V,
    size: SegSize,
    names: &[Text],
    x: u64,
    piece: &mut [u8],
) -> Result<bool, AreaFault>
    requires names { AreNames (V.files area.old) names.now }
    requires piece { length piece.old ≡ 65536 }
    ensures past { IfOk result (IsMarkedPast size (V.files area.old) x) }
    ensures reads { OnlyReads V.Vault area.old area.new }
    ensures cause { HasCause (V.faults area.old) (V.faults area.new) result }
{
    for name in names {
        if marks_past(area, size, name.as_bytes(), x, piece)? {
            return Ok(true);
        }
    }
    Ok(false)
}

/// Whether a byte of the archive other than zero is held at a place or behind it. It looks through
/// the files in bounded pieces, up to such a byte.
pub fn is_marked_from<V: Vault>(
    alloc: Global,
    area: &mut V,
    size: SegSize,
    x: u64,
) -> Result<bool, AreaFault>
    ensures marked { IfOk result (IsMarkedPast size (V.files area.old) x) }
    ensures reads { OnlyReads V.Vault area.old area.new }
    ensures cause { HasCause (V.faults area.old) (V.faults area.new) result }
{
    let names = area.names(alloc)?;
    let mut piece = zeros(alloc, PIECE as usize)?;
    any_marks_past(area, size, &names, x, &mut piece)
}
