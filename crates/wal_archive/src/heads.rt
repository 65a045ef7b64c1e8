//! Heads of pages.

ghost use Rattle.std.specs.Prelude.{◌≡◌, ◌+◌, ◌-◌, ◌*◌, ◌/◌, ◌%◌, ◌^◌, ◌≤◌, ◌<◌, ℕ, length, IfOk, OnOk, Some};
ghost use Rattle.wal_pages.specs.Places.{head_size, IsBehindHead};
ghost use Rattle.lsn_core.specs.Sizes.{page_size};
ghost use Rattle.vault.specs.Frame.{OnlyReads};
ghost use Rattle.wal_archive.specs.Reading.{TellsHead};

use crate::fault::{Broken, Damage, ReadFault};
use crate::taking::take_bytes;
use lsn_core::{Lsn, SegSize};
use std::alloc::Global;
use vault::Vault;
use wal_pages::{head_fault, head_size};

/// Tests the head of a page, where so many bytes of an entry are still to come.
pub fn pass_head<V: Vault>(
    alloc: Global,
    area: &mut V,
    size: SegSize,
    system: u64,
    begin: u64,
    page: u64,
    rest: Option<u32>,
) -> Result<(), ReadFault>
    requires { page % page_size ≡ 0 }
    ensures head { TellsHead V.Vault size system area.old area.new begin page rest result }
    ensures reads { OnlyReads V.Vault area.old area.new }
{
    let mut bytes = [0u8; 40];
    let count = head_size(size, page) as usize;
    pass_into(
        alloc,
        area,
        size,
        system,
        begin,
        page,
        rest,
        &mut bytes[..count],
    )
}

/// The same, with a buffer as long as the head.
fn pass_into<V: Vault>(
    alloc: Global,
    area: &mut V,
    size: SegSize,
    system: u64,
    begin: u64,
    page: u64,
    rest: Option<u32>,
    into: &mut [u8],
) -> Result<(), ReadFault>
    requires page { page % page_size ≡ 0 }
    requires room { length into.old ≡ head_size size page }
    requires fits { length into.old ≤ 40 }
    ensures head { TellsHead V.Vault size system area.old area.new begin page rest result }
    ensures reads { OnlyReads V.Vault area.old area.new }
{
    if let Err(fault) = take_bytes(alloc, area, size, begin, page, into) {
        return Err(fault);
    }
    match head_fault(size, system, page, rest, into) {
        None => Ok(()),
        Some(why) => Err(ReadFault::Bad(Damage::Broken(Lsn(page), Broken::Head(why)))),
    }
}
