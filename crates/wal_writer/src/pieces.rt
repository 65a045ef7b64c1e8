//! Bytes of the archive, written into segment files piece by piece.

ghost use Rattle.std.specs.Prelude.{◌≡◌, ◌+◌, ◌-◌, ◌%◌, ◌/◌, ◌<◌, ◌≤◌, length, take, drop, OnOk};
ghost use Rattle.lsn_core.specs.Causes.{HasCause};
ghost use Rattle.lsn_core.specs.Segment.{segment_bytes};
ghost use Rattle.wal_record.specs.Tips.{wal_limit};
ghost use Rattle.wal_archive.specs.Writing.{room_in};
ghost use Rattle.wal_writer.specs.Stops.{Leaves, WritesBetween, IsSettled};
ghost use Rattle.wal_writer.specs.Inside.{WritesPiece, WritesArchive};

use lsn_core::{AreaFault, SegSize, segment_name};
use std::alloc::Global;
use vault::Vault;

/// Pieces of the archive end at multiples of so many bytes, 1 MiB.
const PIECE: u64 = 1_048_576;

/// Writes bytes of the archive from a place on, and syncs the area.
pub fn write_synced<V: Vault>(
    alloc: Global,
    area: &mut V,
    size: SegSize,
    at: u64,
    bytes: &[u8],
) -> Result<(), AreaFault>
    requires least { segment_bytes size ≤ at }
    requires most { at + length bytes.now ≤ wal_limit size }
    ensures written { OnOk result (WritesArchive V.Vault size at bytes.now area.old area.new) }
    ensures settled { OnOk result (IsSettled V.Vault area.new) }
    ensures left { Leaves size at (length bytes.now) (V.files area.old) (V.files area.new) }
    ensures frame { WritesBetween V.Vault size at (at + length bytes.now) area.old area.new }
    ensures cause { HasCause (V.faults area.old) (V.faults area.new) result }
{
    write_pieces(alloc, area, size, at, bytes)?;
    area.sync()
}

/// Writes bytes of the archive from a place on, piece by piece.
fn write_pieces<V: Vault>(
    alloc: Global,
    area: &mut V,
    size: SegSize,
    at: u64,
    bytes: &[u8],
) -> Result<(), AreaFault>
    requires least { segment_bytes size ≤ at }
    requires most { at + length bytes.now ≤ wal_limit size }
    ensures written { OnOk result (WritesArchive V.Vault size at bytes.now area.old area.new) }
    ensures left { Leaves size at (length bytes.now) (V.files area.old) (V.files area.new) }
    ensures frame { WritesBetween V.Vault size at (at + length bytes.now) area.old area.new }
    ensures cause { HasCause (V.faults area.old) (V.faults area.new) result }
{
    let mut from = at;
    let mut rest = bytes;
    while !rest.is_empty() {
        let room = room_in(from);
        let (piece, behind) = cut(rest, room);
        write_piece(alloc, area, size, from, piece)?;
        from += room;
        rest = behind;
    }
    Ok(())
}

/// How many bytes are from a place to the end of its piece.
fn room_in(at: u64) -> u64
    ensures room { result ≡ room_in at }
    ensures some { 0 < result }
    ensures most { result ≤ 1048576 }
{
    PIECE - at % PIECE
}

/// The first bytes, so many or all, and those behind them.
fn cut(bytes: &[u8], room: u64) -> (&[u8], &[u8])
    ensures front { result.0.now ≡ take room bytes.now }
    ensures rest { result.1.now ≡ drop room bytes.now }
{
    if bytes.len() as u64 <= room {
        return (bytes, &[]);
    }
    bytes.split_at(room as usize)
}

/// Writes a piece of the archive into the file of its segment.
fn write_piece<V: Vault>(
    alloc: Global,
    area: &mut V,
    size: SegSize,
    at: u64,
    piece: &[u8],
) -> Result<(), AreaFault>
    requires least { segment_bytes size ≤ at }
    requires most { at < wal_limit size }
    requires some { 0 < length piece.now }
    ensures written { OnOk result (WritesPiece V.Vault size at piece.now area.old area.new) }
    ensures left { Leaves size at (length piece.now) (V.files area.old) (V.files area.new) }
    ensures frame { WritesBetween V.Vault size at (at + length piece.now) area.old area.new }
    ensures cause { HasCause (V.faults area.old) (V.faults area.new) result }
{
    let bytes = size.bytes();
    let name = segment_name(alloc, at / bytes, size)?;
    area.write_at(name.as_bytes(), at % bytes, piece)
}
