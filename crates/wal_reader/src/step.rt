//! What stands where a cursor does.

ghost use Rattle.std.specs.Prelude.{◌≡◌, ◌≤◌, ◌^◌, true, false, length};
ghost use Rattle.vault.specs.Frame.{OnlyReads};
ghost use Rattle.wal_pages.specs.wal_heads.Header.{most_total};
ghost use Rattle.wal_reader.specs.Wal.{tip_at};
ghost use Rattle.wal_reader.specs.Cursor.{IsReached, CanStep};
ghost use Rattle.wal_reader.specs.Inside.{is_in_room, fault_at, JudgeAnswer};
ghost use Rattle.wal_reader.specs.Inside.{FirstAnswer, StepsFrom};

use crate::fault::WalFault;
use lsn_core::{Lsn, Place, SegSize, WalTip};
use std::alloc::Global;
use vault::Vault;
use wal_archive::{Broken, Damage, next_bytes, set_bytes};
use wal_pages::Layout;
use wal_record::{Record, RecordFault, Why, decode_record, is_own_redo, wal_limit};

/// What stands behind a tip, or at it where a cursor is set there.
pub fn step<V: Vault>(
    alloc: Global,
    wal: &mut V,
    layout: &Layout,
    set: bool,
    tip: WalTip,
) -> Result<Option<Record>, WalFault>
    requires { CanStep layout.now.segment set tip }
    ensures answer { StepsFrom V.Vault layout.now set tip wal.old wal.new result }
    ensures reads { OnlyReads V.Vault wal.old wal.new }
{
    if set {
        step_at(alloc, wal, layout, tip.end)
    } else {
        step_behind(alloc, wal, layout, tip)
    }
}

/// What stands behind a tip.
fn step_behind<V: Vault>(
    alloc: Global,
    wal: &mut V,
    layout: &Layout,
    tip: WalTip,
) -> Result<Option<Record>, WalFault>
    requires { IsReached layout.now.segment tip }
    ensures answer { StepsFrom V.Vault layout.now false tip wal.old wal.new result }
    ensures reads { OnlyReads V.Vault wal.old wal.new }
{
    // known: a segment has a MiB at least
    let _size = layout.settings().segment();
    let bytes = match next_bytes(alloc, wal, layout, tip.end) {
        Ok(Some(bytes)) => bytes,
        Ok(None) => return Ok(None),
        Err(fault) => return Err(WalFault::from(fault)),
    };
    judge(alloc, layout, tip.end, Some(tip.prev), &bytes)
}

/// What stands at a place where a cursor is set.
fn step_at<V: Vault>(
    alloc: Global,
    wal: &mut V,
    layout: &Layout,
    from: Lsn,
) -> Result<Option<Record>, WalFault>
    ensures answer { StepsFrom V.Vault layout.now true (tip_at from.0) wal.old wal.new result }
    ensures reads { OnlyReads V.Vault wal.old wal.new }
{
    // known: a segment has a MiB at least
    let _size = layout.settings().segment();
    let bytes = match set_bytes(alloc, wal, layout, from) {
        Ok(Some(bytes)) => bytes,
        Ok(None) => return Ok(None),
        Err(fault) => return Err(WalFault::from(fault)),
    };
    match judge(alloc, layout, from, None, &bytes) {
        Ok(Some(entry)) => as_first(layout, from, entry),
        Ok(None) => Ok(None),
        Err(fault) => Err(fault),
    }
}

/// Whether an entry at a place lies in the room of the WAL, from segment 1 to the last one.
fn is_in_room(size: SegSize, place: Place) -> bool
    ensures { result ≡ is_in_room size place.start.0 place.end.0 }
{
    size.bytes() <= place.start.0 && place.end.0 <= wal_limit(size).0
}

/// What a refusal of the bytes from `start` on is to the cursor.
fn fault_at(start: Lsn, fault: RecordFault) -> WalFault
    ensures { result ≡ fault_at start.0 fault }
{
    match fault {
        RecordFault::Length => WalFault::Damaged(Damage::Broken(start, Broken::Length)),
        RecordFault::Prev => WalFault::Damaged(Damage::Broken(start, Broken::Prev)),
        RecordFault::Crc => WalFault::Damaged(Damage::Broken(start, Broken::Crc)),
        RecordFault::Unsupported(manager, info) => {
            WalFault::Damaged(Damage::Unsupported(start, manager, info))
        }
        RecordFault::Header => WalFault::Damaged(Damage::Broken(start, Broken::Header)),
        RecordFault::Content(why) => WalFault::Damaged(Damage::Content(start, why)),
        RecordFault::NoMemory => WalFault::NoMemory,
    }
}

/// The entry that bytes are behind an end. An area that doesn't tell its bytes may give some that
/// lie outside the room of the WAL, which is taken as ended there.
fn judge(
    alloc: Global,
    layout: &Layout,
    end: Lsn,
    prev: Option<Lsn>,
    bytes: &[u8],
) -> Result<Option<Record>, WalFault>
    requires bound { end.0 ≤ 2 ^ 51 }
    requires size { length bytes.now ≤ most_total }
    ensures { JudgeAnswer layout.now.segment end.0 prev bytes.now result }
{
    let size = layout.settings().segment();
    let start = layout.start_after(end);
    let place = Place {
        start,
        end: layout.end_of(start, bytes.len() as u32),
    };
    if !is_in_room(size, place) {
        return Ok(None);
    }
    match decode_record(alloc, bytes, place, prev) {
        Ok(record) => Ok(Some(record)),
        Err(fault) => Err(fault_at(start, fault)),
    }
}

/// The archive's first entry is a shutdown checkpoint whose redo point is its own start. Where the
/// link is tested `decode_record` tells that; where it isn't, this does.
fn as_first(layout: &Layout, from: Lsn, entry: Record) -> Result<Option<Record>, WalFault>
    ensures { FirstAnswer layout.now.segment from.0 entry result }
{
    let origin = Lsn(layout.settings().segment().bytes());
    if from.0 == layout.start_after(origin).0 && !is_own_redo(entry.start, &entry.kind) {
        return Err(WalFault::Damaged(Damage::Content(entry.start, Why::First)));
    }
    Ok(Some(entry))
}
