//! Entries over several pages.

ghost use Rattle.std.specs.Prelude.{◌≡◌, ◌+◌, ◌-◌, ◌%◌, ◌^◌, ◌<◌, ◌≤◌, min, length, IfOk, IfSome};
ghost use Rattle.lsn_core.specs.byte_words.Numbers.{u32_in};
ghost use Rattle.lsn_core.specs.Sizes.{page_size};
ghost use Rattle.wal_pages.specs.Places.{head_size, IsBehindHead};
ghost use Rattle.vault.specs.Frame.{OnlyReads};
ghost use Rattle.wal_pages.specs.wal_heads.Header.{least_total, most_total};
ghost use Rattle.wal_archive.specs.Rules.{left_on_page};
ghost use Rattle.wal_archive.specs.Reading.{piece_size, ReadsFront, ReadsBytes, TellsHeld, TellsPiece, TellsEntry, IsEntrySized};

use crate::fault::ReadFault;
use crate::front::{copied, front_of, pass_held_head};
use crate::taking::why_missing;
use lsn_core::{PAGE, SegSize};
use std::alloc::Global;
use vault::Vault;
use wal_pages::head_size;

/// The bytes behind a page's head, so many or all, by what is held of the page.
fn held_piece<V: Vault>(
    alloc: Global,
    area: &mut V,
    size: SegSize,
    begin: u64,
    page: u64,
    left: u32,
    front: &[u8],
) -> Result<Vec<u8>, ReadFault>
    requires bound { page ≤ 2 ^ 53 }
    requires front { ReadsFront size (V.files area.old) page page_size front.now }
    requires most { length front.now ≤ page_size }
    requires head { head_size size page ≤ length front.now }
    ensures piece { TellsHeld V.Vault size area.old area.new begin page left result }
    ensures length { IfOk result (λ p. length p.items ≡ piece_size size page left) }
    ensures reads { OnlyReads V.Vault area.old area.new }
{
    let head = head_size(size, page);
    let wanted = u64::from(left).min(PAGE - head);
    if (front.len() as u64) < head + wanted {
        let damage = why_missing(alloc, area, size, begin, page + front.len() as u64)?;
        return Err(ReadFault::Bad(damage));
    }
    let piece = copied(alloc, front, head as usize, wanted as usize)?;
    Ok(piece)
}

/// The bytes of an entry on a page on which so many of them are still to come: all of these, or as
/// many as the page has. It is one read.
fn page_piece<V: Vault>(
    alloc: Global,
    area: &mut V,
    size: SegSize,
    system: u64,
    begin: u64,
    page: u64,
    left: u32,
) -> Result<Vec<u8>, ReadFault>
    requires page { page % page_size ≡ 0 }
    requires bound { page ≤ 2 ^ 53 }
    ensures piece { TellsPiece V.Vault size system area.old area.new begin page left result }
    ensures length { IfOk result (λ p. length p.items ≡ piece_size size page left) }
    ensures reads { OnlyReads V.Vault area.old area.new }
{
    let front = front_of(alloc, area, size, page)?;
    let rest = Some(left);
    if let Err(fault) = pass_held_head(alloc, area, size, system, begin, page, rest, &front) {
        return Err(fault);
    }
    held_piece(alloc, area, size, begin, page, left, &front)
}

/// The own bytes of an entry that goes on over the end of its page, by those on that page.
pub fn long_entry<V: Vault>(
    alloc: Global,
    area: &mut V,
    size: SegSize,
    system: u64,
    start: u64,
    total: u32,
    first: Vec<u8>,
) -> Result<Vec<u8>, ReadFault>
    requires bound { start ≤ 2 ^ 52 }
    requires least { least_total ≤ total }
    requires most { total ≤ most_total }
    requires room { length first.items ≡ left_on_page start }
    requires more { length first.items < total }
    requires four { 4 ≤ length first.items }
    requires number { u32_in first.items 0 ≡ total }
    requires first { ReadsBytes size (V.files area.old) start first.items }
    ensures bytes { TellsEntry V.Vault size system area.old area.new start start total result }
    ensures size { IfOk result (λ bytes. IsEntrySized bytes.items) }
    ensures reads { OnlyReads V.Vault area.old area.new }
{
    let mut bytes = first;
    let mut page = start + bytes.len() as u64;
    let mut left = total - bytes.len() as u32;
    while left > 0 {
        let piece = match page_piece(alloc, area, size, system, start, page, left) {
            Ok(piece) => piece,
            Err(fault) => return Err(fault),
        };
        bytes.extend_from_slice(&piece)?;
        left -= piece.len() as u32;
        page += PAGE;
    }
    Ok(bytes)
}
