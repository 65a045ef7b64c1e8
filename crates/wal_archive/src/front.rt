//! What is held of a page, and what it tells of the entry that starts there.

ghost use Rattle.std.specs.Prelude.{◌≡◌, ◌+◌, ◌-◌, ◌%◌, ◌^◌, ◌<◌, ◌≤◌, ℕ, length, take, drop, get_or, IsTrue, Some, IfOk, IfSome};
ghost use Rattle.lsn_core.specs.byte_words.Numbers.{u32_in};
ghost use Rattle.lsn_core.specs.Causes.{HasCause};
ghost use Rattle.lsn_core.specs.Sizes.{page_size};
ghost use Rattle.wal_pages.specs.Places.{head_size, IsBehindHead};
ghost use Rattle.vault.specs.Frame.{OnlyReads};
ghost use Rattle.wal_pages.specs.wal_heads.Header.{least_total, most_total};
ghost use Rattle.wal_archive.specs.Archive.{archive_of};
ghost use Rattle.wal_archive.specs.Rules.{is_total, left_on_page};
ghost use Rattle.wal_archive.specs.Reading.{ReadsFront, TellsHead, TellsEntryAt, IsEntrySized, shows_more};

use crate::fault::{Broken, Damage, ReadFault};
use crate::long::long_entry;
use crate::run::run_on_page;
use crate::taking::why_missing;
use lsn_core::byte_words::{u32_in, zeros};
use lsn_core::{AreaFault, Lsn, PAGE, SegSize};
use std::alloc::{AllocError, Global};
use vault::Vault;
use wal_pages::wal_heads::{LEAST_TOTAL, MOST_TOTAL};
use wal_pages::{head_fault, head_size};

/// Whether an entry may have so many bytes.
fn is_total(total: u32) -> bool
    ensures total { result ≡ is_total total }
    ensures least { IsTrue result → least_total ≤ total }
    ensures most { IsTrue result → total ≤ most_total }
{
    LEAST_TOTAL <= total && total <= MOST_TOTAL
}

/// What is held of a page from a place on.
pub fn front_of<V: Vault>(
    alloc: Global,
    area: &mut V,
    size: SegSize,
    x: u64,
) -> Result<Vec<u8>, AreaFault>
    ensures front { IfOk result (λ bytes.
        ReadsFront size (V.files area.old) x (left_on_page x) bytes.items) }
    ensures most { IfOk result (λ bytes. length bytes.items ≤ left_on_page x) }
    ensures reads { OnlyReads V.Vault area.old area.new }
    ensures cause { HasCause (V.faults area.old) (V.faults area.new) result }
{
    let mut bytes = zeros(alloc, (PAGE - x % PAGE) as usize)?;
    let count = run_on_page(alloc, area, size, x, &mut bytes)?;
    bytes.truncate(count as usize);
    Ok(bytes)
}

/// Whether the bytes from an index on begin with a number other than zero, as an entry does.
pub fn shows_more(bytes: &[u8], at: usize) -> bool
    requires { at ≤ 2 ^ 32 }
    ensures { result ≡ shows_more bytes.now at }
{
    at + 4 <= bytes.len() && u32_in(bytes, at) != 0
}

/// Tests the head of a page, where so many bytes of an entry are still to come, by what is held of
/// the page.
pub fn pass_held_head<V: Vault>(
    alloc: Global,
    area: &mut V,
    size: SegSize,
    system: u64,
    begin: u64,
    page: u64,
    rest: Option<u32>,
    front: &[u8],
) -> Result<(), ReadFault>
    requires page { page % page_size ≡ 0 }
    requires bound { page ≤ 2 ^ 53 }
    requires front { ReadsFront size (V.files area.old) page page_size front.now }
    requires most { length front.now ≤ page_size }
    ensures head { TellsHead V.Vault size system area.old area.new begin page rest result }
    ensures held { IfOk result (λ done. head_size size page ≤ length front.now) }
    ensures reads { OnlyReads V.Vault area.old area.new }
{
    let count = head_size(size, page) as usize;
    if front.len() < count {
        let damage = why_missing(alloc, area, size, begin, page + front.len() as u64)?;
        return Err(ReadFault::Bad(damage));
    }
    match head_fault(size, system, page, rest, &front[..count]) {
        None => Ok(()),
        Some(why) => Err(ReadFault::Bad(Damage::Broken(Lsn(page), Broken::Head(why)))),
    }
}

/// So many bytes from an index on.
pub fn copied(alloc: Global, bytes: &[u8], at: usize, count: usize) -> Result<Vec<u8>, AllocError>
    requires { at + count ≤ length bytes.now }
    ensures { IfOk result (λ copy. copy.items ≡ take count (drop at bytes.now)) }
{
    let mut copy = Vec::new(alloc);
    copy.extend_from_slice(&bytes[at..at + count])?;
    Ok(copy)
}

/// The own bytes of the entry that starts at a place, by what is held of its page from x on.
pub fn entry_on<V: Vault>(
    alloc: Global,
    area: &mut V,
    size: SegSize,
    system: u64,
    x: u64,
    start: u64,
    front: &[u8],
) -> Result<Vec<u8>, ReadFault>
    requires behind { IsBehindHead size start }
    requires order { x ≤ start }
    requires page { x % page_size + (start - x) + 4 ≤ page_size }
    requires bound { start ≤ 2 ^ 52 }
    requires front { ReadsFront size (V.files area.old) x (left_on_page x) front.now }
    requires held { start - x ≤ length front.now }
    requires most { length front.now ≤ left_on_page x }
    ensures entry { TellsEntryAt V.Vault size system area.old area.new start
        result }
    ensures size { IfOk result (λ bytes. IsEntrySized bytes.items) }
    ensures reads { OnlyReads V.Vault area.old area.new }
{
    let at = (start - x) as usize;
    if front.len() < at + 4 {
        let damage = why_missing(alloc, area, size, start, x + front.len() as u64)?;
        return Err(ReadFault::Bad(damage));
    }
    let total = u32_in(front, at);
    if !is_total(total) {
        return Err(ReadFault::Bad(Damage::Broken(Lsn(start), Broken::Length)));
    }
    if at + total as usize <= front.len() {
        let bytes = copied(alloc, front, at, total as usize)?;
        return Ok(bytes);
    }
    if (front.len() as u64) < PAGE - x % PAGE {
        let damage = why_missing(alloc, area, size, start, x + front.len() as u64)?;
        return Err(ReadFault::Bad(damage));
    }
    let first = copied(alloc, front, at, front.len() - at)?;
    long_entry(alloc, area, size, system, start, total, first)
}
