//! What stands behind an end of the archive, and where a cursor is set.

ghost use Rattle.std.specs.Prelude.{◌≡◌, ◌+◌, ◌-◌, ◌%◌, ◌^◌, ◌<◌, ◌≤◌, length, IsTrue, IfOk, IfSome, nat_le, ◌==◌, ◌&&◌};
ghost use Rattle.lsn_core.specs.Sizes.{page_size};
ghost use Rattle.wal_pages.specs.Places.{head_size, start_after, IsBehindHead};
ghost use Rattle.vault.specs.Frame.{OnlyReads};
ghost use Rattle.wal_archive.specs.Reading.{TellsEnded, TellsBehind, TellsNext, TellsSetHeads, TellsZero, TellsSet, ReadsFront, ReadsEnd, MayStart, IsEntrySized, front_place};
ghost use Rattle.wal_archive.specs.Rules.{left_on_page, next_bytes, set_bytes, set_heads};

use crate::fault::{Broken, Damage, ReadFault};
use crate::front::{entry_on, front_of, pass_held_head, shows_more};
use crate::heads::pass_head;
use crate::stops::{is_end, is_zero_from};
use lsn_core::{Lsn, PAGE, SegSize};
use std::alloc::Global;
use vault::Vault;
use wal_pages::{Layout, head_size};

/// A place behind all archives.
const BEYOND: u64 = 2_251_799_813_685_248;

/// Where the page of an end is read from.
fn front_place(end: u64, start: u64) -> u64
    ensures { result ≡ front_place end start }
{
    if end % PAGE == 0 { end } else { start }
}

/// Whether the archive ends at an end. Where the bytes of its page show an entry, no other file is
/// looked at.
fn is_ended<V: Vault>(
    alloc: Global,
    area: &mut V,
    size: SegSize,
    system: u64,
    end: u64,
    start: u64,
    front: &[u8],
) -> Result<bool, ReadFault>
    requires bound { end ≤ 2 ^ 51 }
    requires start { start ≡ start_after size end }
    requires order { front_place end start ≤ start }
    requires near { start - front_place end start ≤ 2 ^ 32 }
    requires front { ReadsEnd size (V.files area.old) end start front.now }
    ensures ended { TellsEnded V.Vault size system area.old area.new end result }
    ensures reads { OnlyReads V.Vault area.old area.new }
{
    // known: a segment has a MiB at least
    let _mib = size.mib();
    let x = front_place(end, start);
    if shows_more(front, (start - x) as usize) {
        return Ok(false);
    }
    is_end(alloc, area, size, system, end)
}

/// The own bytes of the entry behind an end, where the archive goes on there.
fn entry_behind<V: Vault>(
    alloc: Global,
    area: &mut V,
    size: SegSize,
    system: u64,
    end: u64,
    start: u64,
    front: &[u8],
) -> Result<Vec<u8>, ReadFault>
    requires bound { end ≤ 2 ^ 51 }
    requires eight { end % 8 ≡ 0 }
    requires start { start ≡ start_after size end }
    requires front { ReadsEnd size (V.files area.old) end start front.now }
    requires most { length front.now ≤ left_on_page (front_place end start) }
    ensures entry { TellsBehind V.Vault size system area.old area.new end result }
    ensures size { IfOk result (λ bytes. IsEntrySized bytes.items) }
    ensures reads { OnlyReads V.Vault area.old area.new }
{
    // known: a segment has a MiB at least
    let _mib = size.mib();
    if end % PAGE != 0 {
        return entry_on(alloc, area, size, system, start, start, front);
    }
    if let Err(fault) = pass_held_head(alloc, area, size, system, end, end, Some(0), front) {
        return Err(fault);
    }
    entry_on(alloc, area, size, system, end, start, front)
}

/// The own bytes of the entry behind an end, which is below all that no archive has. None exactly
/// where the archive ends there.
fn next_from<V: Vault>(
    alloc: Global,
    area: &mut V,
    size: SegSize,
    system: u64,
    end: u64,
    start: u64,
) -> Result<Option<Vec<u8>>, ReadFault>
    requires bound { end ≤ 2 ^ 51 }
    requires eight { end % 8 ≡ 0 }
    requires start { start ≡ start_after size end }
    ensures bytes { TellsNext V.Vault size system area.old area.new end result }
    ensures size { IfOk result (λ found. IfSome found (λ bytes. IsEntrySized bytes.items)) }
    ensures reads { OnlyReads V.Vault area.old area.new }
{
    // known: a segment has a MiB at least
    let _mib = size.mib();
    let x = front_place(end, start);
    let front = front_of(alloc, area, size, x)?;
    let ended = match is_ended(alloc, area, size, system, end, start, &front) {
        Ok(ended) => ended,
        Err(fault) => return Err(fault),
    };
    if ended {
        return Ok(None);
    }
    match entry_behind(alloc, area, size, system, end, start, &front) {
        Ok(bytes) => Ok(Some(bytes)),
        Err(fault) => Err(fault),
    }
}

/// The own bytes of the entry behind an end, which is a multiple of 8. None exactly where the
/// archive ends there.
///
/// # Errors
///
/// The damage behind the end, as the reading rules have it; or a failed call, or want of memory.
pub fn next_bytes<V: Vault>(
    alloc: Global,
    area: &mut V,
    of: &Layout,
    end: Lsn,
) -> Result<Option<Vec<u8>>, ReadFault>
    requires { end.0 % 8 ≡ 0 }
    ensures bytes { TellsNext V.Vault of.now.segment of.now.system area.old area.new end.0 result }
    ensures size { IfOk result (λ found. IfSome found (λ bytes. IsEntrySized bytes.items)) }
    ensures place { IfOk result (λ found. IfSome found (λ bytes. end.0 ≤ 2 ^ 51)) }
    ensures reads { OnlyReads V.Vault area.old area.new }
{
    let settings = of.settings();
    let size = settings.segment();
    if end.0 > BEYOND {
        return Ok(None);
    }
    let start = of.start_after(end).0;
    next_from(alloc, area, size, settings.system(), end.0, start)
}

/// Tests the heads of the segment's first page and of the page of a place where a cursor is set.
fn pass_set_heads<V: Vault>(
    alloc: Global,
    area: &mut V,
    size: SegSize,
    system: u64,
    from: u64,
) -> Result<(), ReadFault>
    ensures heads { TellsSetHeads V.Vault size system area.old area.new from result }
    ensures reads { OnlyReads V.Vault area.old area.new }
{
    let first = from - from % size.bytes();
    if let Err(fault) = pass_head(alloc, area, size, system, first, first, None) {
        return Err(fault);
    }
    let page = from - from % PAGE;
    pass_head(alloc, area, size, system, page, page, None)
}

/// Whether all that is held where a cursor is set is zero. Where the bytes there show an entry, no
/// other file is looked at.
fn is_set_end<V: Vault>(
    alloc: Global,
    area: &mut V,
    size: SegSize,
    from: u64,
    front: &[u8],
) -> Result<bool, ReadFault>
    requires front { ReadsFront size (V.files area.old) from (left_on_page from) front.now }
    ensures zeros { TellsZero V.Vault size area.old area.new from result }
    ensures reads { OnlyReads V.Vault area.old area.new }
{
    // known: a segment has a MiB at least
    let _mib = size.mib();
    if shows_more(front, 0) {
        return Ok(false);
    }
    is_zero_from(alloc, area, size, from)
}

/// The own bytes of the entry that starts where a cursor is set, where one may start there.
fn set_from<V: Vault>(
    alloc: Global,
    area: &mut V,
    size: SegSize,
    system: u64,
    from: u64,
) -> Result<Option<Vec<u8>>, ReadFault>
    requires bound { from ≤ 2 ^ 51 }
    requires eight { from % 8 ≡ 0 }
    requires behind { IsBehindHead size from }
    ensures bytes { TellsSet V.Vault size system area.old area.new from result }
    ensures size { IfOk result (λ found. IfSome found (λ bytes. IsEntrySized bytes.items)) }
    ensures reads { OnlyReads V.Vault area.old area.new }
{
    let front = front_of(alloc, area, size, from)?;
    let zeros = match is_set_end(alloc, area, size, from, &front) {
        Ok(zeros) => zeros,
        Err(fault) => return Err(fault),
    };
    if zeros {
        return Ok(None);
    }
    if let Err(fault) = pass_set_heads(alloc, area, size, system, from) {
        return Err(fault);
    }
    match entry_on(alloc, area, size, system, from, from, &front) {
        Ok(bytes) => Ok(Some(bytes)),
        Err(fault) => Err(fault),
    }
}

/// Whether an entry may start at a place: a multiple of 8 behind its page's head.
fn may_start(size: SegSize, from: u64) -> bool
    ensures may { result ≡ ((from % 8 == 0) && nat_le (head_size size from) (from % page_size)) }
    ensures eight { IsTrue result → from % 8 ≡ 0 }
    ensures behind { IsTrue result → IsBehindHead size from }
{
    from % 8 == 0 && head_size(size, from) <= from % PAGE
}

/// The own bytes of the entry that starts where a cursor is set. None exactly where the archive
/// ends there.
///
/// # Errors
///
/// `Place` where no entry may start there; else the damage there, as the reading rules have it; or
/// a failed call, or want of memory.
pub fn set_bytes<V: Vault>(
    alloc: Global,
    area: &mut V,
    of: &Layout,
    from: Lsn,
) -> Result<Option<Vec<u8>>, ReadFault>
    ensures bytes { TellsSet V.Vault of.now.segment of.now.system area.old area.new from.0 result }
    ensures size { IfOk result (λ found. IfSome found (λ bytes. IsEntrySized bytes.items)) }
    ensures place { IfOk result (λ found. IfSome found (λ bytes. MayStart of.now.segment from.0)) }
    ensures reads { OnlyReads V.Vault area.old area.new }
{
    let settings = of.settings();
    let size = settings.segment();
    if !may_start(size, from.0) {
        return Err(ReadFault::Bad(Damage::Broken(from, Broken::Place)));
    }
    if from.0 > BEYOND {
        return Ok(None);
    }
    set_from(alloc, area, size, settings.system(), from.0)
}
