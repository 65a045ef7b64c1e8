//! The sums of files of which four at a time are hashed side by side.

ghost use Rattle.std.specs.Prelude.{◌≡◌, ℕ, ◌+◌, ◌%◌, ◌^◌, ◌<◌, ◌≤◌, true, List, length};
ghost use Rattle.std.specs.Prelude.{slice_get, Some, IfOk, IfSome};
ghost use Rattle.lsn_core.specs.Files.{Files};
ghost use Rattle.lsn_core.specs.Causes.{HasCause};
ghost use Rattle.vault.specs.Frame.{OnlyReads};
ghost use Rattle.manifest.specs.declared.kinds.SumKind.TheVariants.{Sha256};
ghost use Rattle.manifest.specs.declared.listing.FileRow.{FileRow};
ghost use Rattle.file_sums.specs.LaneSums.{Knows, AreKnown, KnowsRow, IsSeen, IsAt};
ghost use Rattle.file_sums.specs.LaneSums.{Moves, IsHashing};

use crate::sums::says_sum;
use chain_files::read_piece;
use lsn_core::byte_words::zeros;
use lsn_core::{AreaFault, NoMemory};
use manifest::{FileRow, SumKind};
use sha_lanes::Lanes;
use std::alloc::{AllocError, Global};
use vault::Vault;

/// How many bytes of a file are read at once: 256 KiB.
const PIECE: usize = 262144;

/// The file that a lane hashes: which row it is, how many of its bytes the lane has seen, and how
/// many are listed.
#[derive(Clone, Copy)]
pub(crate) struct Place {
    row: usize,
    at: u64,
    size: u64,
}

/// Four lanes with their places, and what is known of each row: whether its file has its sum.
#[derive(Drop)]
pub(crate) struct Hashing {
    lanes: Lanes,
    places: [Option<Place>; 4],
    known: Vec<Option<bool>>,
}

/// A piece of a file for each lane.
#[derive(Drop)]
struct Buffers {
    first: Vec<u8>,
    second: Vec<u8>,
    third: Vec<u8>,
    fourth: Vec<u8>,
}

/// Reads the piece that a lane sees next. Its place behind it, or none where the file ends before.
fn next_place<V: Vault>(
    area: &mut V,
    rows: &[FileRow],
    place: Option<Place>,
    buffer: &mut [u8],
) -> Result<Option<Place>, AreaFault>
    requires { length buffer.old ≤ 2 ^ 20 }
    ensures next { IfOk result (λ next. IfSome (V.files area.old) (λ m.
        Moves m rows.now place next buffer.new)) }
    ensures long { length buffer.new ≡ length buffer.old }
    ensures reads { OnlyReads V.Vault area.old area.new }
    ensures cause { HasCause (V.faults area.old) (V.faults area.new) result }
{
    let Some(Place { row, at, size }) = place else {
        return Ok(None);
    };
    let Some(listed) = rows.get(row) else {
        return Ok(None);
    };
    let Some(end) = at.checked_add(buffer.len() as u64) else {
        return Ok(None);
    };
    if !read_piece(area, listed.path.as_bytes(), at, buffer)? {
        return Ok(None);
    }
    Ok(Some(Place { row, at: end, size }))
}

/// Each lane sees a piece of its file.
fn see_piece<V: Vault>(
    area: &mut V,
    rows: &[FileRow],
    hashing: &mut Hashing,
    a: &mut [u8],
    b: &mut [u8],
    c: &mut [u8],
    d: &mut [u8],
) -> Result<(), AreaFault>
    requires blocks { length a.old % 64 ≡ 0 }
    requires most { length a.old ≤ 2 ^ 20 }
    requires b { length b.old ≡ length a.old }
    requires c { length c.old ≡ length a.old }
    requires d { length d.old ≡ length a.old }
    ensures hashing { IfSome (V.files area.old) (λ m.
        IsHashing m rows.now hashing.old → IsHashing m rows.now hashing.new) }
    ensures reads { OnlyReads V.Vault area.old area.new }
    ensures cause { HasCause (V.faults area.old) (V.faults area.new) result }
{
    let first = next_place(area, rows, hashing.places[0], a)?;
    let second = next_place(area, rows, hashing.places[1], b)?;
    let third = next_place(area, rows, hashing.places[2], c)?;
    let fourth = next_place(area, rows, hashing.places[3], d)?;
    hashing.lanes.see(a, b, c, d);
    hashing.places = [first, second, third, fourth];
    Ok(())
}

/// Whether a row's file has its sum, of which a lane has seen all but these last bytes.
fn last_sum<V: Vault>(
    alloc: Global,
    area: &mut V,
    row: &FileRow,
    lanes: &Lanes,
    lane: usize,
    at: u64,
    size: u64,
    rest: &mut [u8],
) -> Result<Option<bool>, AreaFault>
    requires lane { lane < 4 }
    requires kind { row.now.kind ≡ Sha256 }
    requires size { size ≡ row.now.size }
    requires short { length rest.old < 64 }
    requires end { at + length rest.old ≡ size }
    ensures known { IfOk result (λ known. IfSome (V.files area.old) (λ m.
        IsSeen m row.now at lanes.now lane → Knows m row.now known)) }
    ensures reads { OnlyReads V.Vault area.old area.new }
    ensures cause { HasCause (V.faults area.old) (V.faults area.new) result }
{
    if !read_piece(area, row.path.as_bytes(), at, rest)? {
        return Ok(None);
    }
    let digest = lanes.digest(lane, rest, size);
    Ok(Some(says_sum(alloc, row.sum.as_bytes(), &digest)?))
}

/// Whether the file in a lane's place has its row's sum, where fewer than 64 bytes are left of it
/// and the sum is one of SHA-256.
fn place_sum<V: Vault>(
    alloc: Global,
    area: &mut V,
    rows: &[FileRow],
    lanes: &Lanes,
    lane: usize,
    place: Place,
) -> Result<Option<bool>, AreaFault>
    requires { lane < 4 }
    ensures known { IfOk result (λ known. IfSome (V.files area.old) (λ m.
        IsAt m rows.now lanes.now lane (Some place)
        → KnowsRow m (slice_get rows.now place.row) known)) }
    ensures reads { OnlyReads V.Vault area.old area.new }
    ensures cause { HasCause (V.faults area.old) (V.faults area.new) result }
{
    let Some(row) = rows.get(place.row) else {
        return Ok(None);
    };
    let SumKind::Sha256 = row.kind else {
        return Ok(None);
    };
    let Place { at, .. } = place;
    let size = row.size;
    if size < at || size - at >= 64 {
        return Ok(None);
    }
    let count = (size - at) as usize;
    let mut rest = [0u8; 64];
    let rest = &mut rest[..count];
    last_sum(alloc, area, row, lanes, lane, at, size, rest)
}

/// Keeps what is known of a row.
fn keep(known: &mut Vec<Option<bool>>, row: usize, same: Option<bool>)
    ensures { (m : Files) (rows : List FileRow) → KnowsRow m (slice_get rows row) same
        → AreKnown m rows known.old.items → AreKnown m rows known.new.items }
{
    if row < known.len() {
        known[row] = same;
    }
}

/// Ends the file in a lane's place, where fewer than 64 bytes are left of it.
fn end_place<V: Vault>(
    alloc: Global,
    area: &mut V,
    rows: &[FileRow],
    hashing: &mut Hashing,
    lane: usize,
) -> Result<(), AreaFault>
    requires { lane < 4 }
    ensures hashing { IfSome (V.files area.old) (λ m.
        IsHashing m rows.now hashing.old → IsHashing m rows.now hashing.new) }
    ensures reads { OnlyReads V.Vault area.old area.new }
    ensures cause { HasCause (V.faults area.old) (V.faults area.new) result }
{
    let Some(place) = hashing.places[lane] else {
        return Ok(());
    };
    if place.size.saturating_sub(place.at) >= 64 {
        return Ok(());
    }
    let same = place_sum(alloc, area, rows, &hashing.lanes, lane, place)?;
    keep(&mut hashing.known, place.row, same);
    hashing.places[lane] = None;
    Ok(())
}

/// Begins the largest file that is left in a lane without a file.
fn begin_place(hashing: &mut Hashing, lane: usize, left: &mut Vec<(u64, usize)>)
    requires { lane < 4 }
    ensures { (m : Files) (rows : List FileRow)
        → IsHashing m rows hashing.old → IsHashing m rows hashing.new }
{
    if hashing.places[lane].is_some() {
        return;
    }
    if let Some((size, row)) = left.pop() {
        hashing.lanes.begin(lane);
        hashing.places[lane] = Some(Place { row, at: 0, size });
    }
}

/// Whether a lane has a file.
fn is_busy(places: &[Option<Place>; 4]) -> bool {
    places.iter().any(|place| place.is_some())
}

/// How many bytes each lane may see next, whole blocks that each file has and the buffers hold.
fn piece_for(places: &[Option<Place>; 4], most: usize) -> usize
    ensures blocks { result % 64 ≡ 0 }
    ensures most { result ≤ most }
{
    let mut piece = (most / 64 * 64) as u64;
    for place in places {
        if let Some(place) = place {
            piece = piece.min(place.size.saturating_sub(place.at) / 64 * 64);
        }
    }
    piece as usize
}

/// Each lane sees the next piece of its file.
fn see_next<V: Vault>(
    area: &mut V,
    rows: &[FileRow],
    hashing: &mut Hashing,
    buffers: &mut Buffers,
) -> Result<(), AreaFault>
    ensures hashing { IfSome (V.files area.old) (λ m.
        IsHashing m rows.now hashing.old → IsHashing m rows.now hashing.new) }
    ensures reads { OnlyReads V.Vault area.old area.new }
    ensures cause { HasCause (V.faults area.old) (V.faults area.new) result }
{
    let most = PIECE
        .min(buffers.first.len())
        .min(buffers.second.len())
        .min(buffers.third.len())
        .min(buffers.fourth.len());
    let piece = piece_for(&hashing.places, most);
    if piece == 0 {
        return Ok(());
    }
    see_piece(
        area,
        rows,
        hashing,
        &mut buffers.first[..piece],
        &mut buffers.second[..piece],
        &mut buffers.third[..piece],
        &mut buffers.fourth[..piece],
    )
}

/// Ends and begins files where that is due, and lets each lane see a piece. Whether one has a file.
fn turn<V: Vault>(
    alloc: Global,
    area: &mut V,
    rows: &[FileRow],
    hashing: &mut Hashing,
    left: &mut Vec<(u64, usize)>,
    buffers: &mut Buffers,
) -> Result<bool, AreaFault>
    ensures hashing { IfSome (V.files area.old) (λ m.
        IsHashing m rows.now hashing.old → IsHashing m rows.now hashing.new) }
    ensures reads { OnlyReads V.Vault area.old area.new }
    ensures cause { HasCause (V.faults area.old) (V.faults area.new) result }
{
    for lane in 0..4 {
        end_place(alloc, area, rows, hashing, lane)?;
        begin_place(hashing, lane, left);
    }
    if !is_busy(&hashing.places) {
        return Ok(false);
    }
    see_next(area, rows, hashing, buffers)?;
    Ok(true)
}

/// Leaves the largest files out, as long as one is more than half of the others together: in its
/// lane it would be alone for longer than it takes by itself.
fn leave_out_large(sizes: &mut Vec<(u64, usize)>, total: u64) {
    let mut rest = total;
    for _ in 0..sizes.len() {
        let Some((size, _)) = sizes.last() else {
            return;
        };
        rest = rest.saturating_sub(*size);
        if *size <= rest / 2 {
            return;
        }
        sizes.pop();
    }
}

/// The rows that are summed in lanes, by the sizes of their files, the largest last.
fn by_size(alloc: Global, rows: &[FileRow]) -> Result<Vec<(u64, usize)>, NoMemory> {
    let mut sizes = Vec::new(alloc);
    let mut total = 0u64;
    for (index, row) in rows.iter().enumerate() {
        if let SumKind::Sha256 = row.kind {
            total = total.saturating_add(row.size);
            sizes.push((row.size, index))?;
        }
    }
    sizes.sort_unstable();
    leave_out_large(&mut sizes, total);
    Ok(sizes)
}

/// Four lanes without a file, and nothing known of so many rows.
fn begun(alloc: Global, rows: usize) -> Result<Hashing, NoMemory>
    ensures { IfOk result (λ h. (m : Files) (rows : List FileRow) → IsHashing m rows h) }
{
    let known = vec![in alloc; None; rows]?;
    Ok(Hashing {
        lanes: Lanes::new(),
        places: [None, None, None, None],
        known,
    })
}

/// Buffers for a piece each.
fn four_buffers(alloc: Global) -> Result<Buffers, AllocError> {
    Ok(Buffers {
        first: zeros(alloc, PIECE)?,
        second: zeros(alloc, PIECE)?,
        third: zeros(alloc, PIECE)?,
        fourth: zeros(alloc, PIECE)?,
    })
}

/// What four lanes tell of the rows' sums: of each row whether its file, as far as its size is
/// listed, has its sum, or nothing. Nothing is told of sums of another kind than SHA-256, and of
/// files that are faster by themselves.
pub fn lane_sums<V: Vault>(
    alloc: Global,
    area: &mut V,
    rows: &[FileRow],
) -> Result<Vec<Option<bool>>, AreaFault>
    ensures known { IfOk result (λ known. IfSome (V.files area.old) (λ m.
        AreKnown m rows.now known.items)) }
    ensures reads { OnlyReads V.Vault area.old area.new }
    ensures cause { HasCause (V.faults area.old) (V.faults area.new) result }
{
    let mut hashing = begun(alloc, rows.len())?;
    let mut left = by_size(alloc, rows)?;
    let mut buffers = four_buffers(alloc)?;
    for _ in 0..u64::MAX {
        if !turn(alloc, area, rows, &mut hashing, &mut left, &mut buffers)? {
            break;
        }
    }
    Ok(hashing.known)
}
