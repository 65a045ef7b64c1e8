//! The heads of incremental files.

ghost use Rattle.std.specs.Prelude.{◌≡◌, ◌≢◌, ◌^◌, ◌<◌, ◌≤◌, true, length, Ok, Err, IfOk, IfSome, OnOk};
ghost use Rattle.lsn_core.specs.Causes.{HasCause};
ghost use Rattle.vault.specs.Area.{bytes_of};
ghost use Rattle.vault.specs.Frame.{OnlyReads};
ghost use Rattle.incr_file.specs.Reading.{HoldsHead, HeadAnswers, HasPlaces};
ghost use Rattle.incr_file.specs.Head.{IsHead};
ghost use Rattle.incr_file.specs.declared.decode.HeadFault.TheVariants.{NoMemory as OutOfMemory};
ghost use Rattle.chain_files.specs.Sources.{IsPiece};
ghost use Rattle.chain_files.specs.Inside.{ShowsFrom, GoesOn};

use incr_file::{HeadFault, HeadView, decode_head, head_size};
use lsn_core::byte_words::zeros;
use lsn_core::{AreaFault, NoMemory};
use std::alloc::Global;
use vault::Vault;

/// How many bytes of a head are read at once: 64 KiB.
const PIECE: u64 = 65536;

/// How many bytes of a head tell the count of its block numbers.
const FRONT: u64 = 12;

/// Reads the piece of a file from a place on. Whether the file has so many bytes.
pub fn read_piece<V: Vault>(
    area: &mut V,
    path: &[u8],
    at: u64,
    buffer: &mut [u8],
) -> Result<bool, AreaFault>
    requires { length buffer.old ≤ 2 ^ 20 }
    ensures piece { IfOk result (λ whole. whole ≡ true
        → IfSome (V.files area.old) (λ m. IsPiece m path.now at buffer.new)) }
    ensures long { length buffer.new ≡ length buffer.old }
    ensures reads { OnlyReads V.Vault area.old area.new }
    ensures cause { HasCause (V.faults area.old) (V.faults area.new) result }
{
    let count = area.read_at(path, at, buffer)?;
    Ok(count as usize == buffer.len())
}

/// So many bytes of a file from a place on; zeros for those that the area doesn't give.
fn piece_at<V: Vault>(
    alloc: Global,
    area: &mut V,
    path: &[u8],
    at: u64,
    count: u64,
) -> Result<Vec<u8>, AreaFault>
    requires { count ≤ 2 ^ 20 }
    ensures long { IfOk result (λ piece. length piece.items ≡ count) }
    ensures shown { IfOk result (λ piece. IfSome (V.files area.old) (λ m.
        ShowsFrom (bytes_of m path.now) at piece.items)) }
    ensures reads { OnlyReads V.Vault area.old area.new }
    ensures cause { HasCause (V.faults area.old) (V.faults area.new) result }
{
    let mut piece = zeros(alloc, count as usize)?;
    area.read_at(path, at, &mut piece)?;
    Ok(piece)
}

/// Puts a file's next bytes behind its beginning, so that there are at least so many.
fn read_up_to<V: Vault>(
    alloc: Global,
    area: &mut V,
    path: &[u8],
    size: u64,
    bytes: &mut Vec<u8>,
) -> Result<(), AreaFault>
    requires { length bytes.old.items < 2 ^ 64 }
    ensures long { OnOk result (size ≤ length bytes.new.items) }
    ensures more { GoesOn bytes.old.items bytes.new.items }
    ensures shown { IfSome (V.files area.old) (λ m.
        ShowsFrom (bytes_of m path.now) 0 bytes.old.items
        → ShowsFrom (bytes_of m path.now) 0 bytes.new.items) }
    ensures reads { OnlyReads V.Vault area.old area.new }
    ensures cause { HasCause (V.faults area.old) (V.faults area.new) result }
{
    while (bytes.len() as u64) < size {
        let at = bytes.len() as u64;
        let piece = piece_at(alloc, area, path, at, PIECE.min(size - at))?;
        bytes.extend_from_slice(&piece)?;
    }
    Ok(())
}

/// The beginning of an incremental file of a size, as far as its head needs it: the first 12 bytes,
/// and the block numbers where their count gives the size. Zeros stand for bytes that the area
/// doesn't give.
fn head_bytes<V: Vault>(
    alloc: Global,
    area: &mut V,
    path: &[u8],
    size: u64,
) -> Result<Vec<u8>, AreaFault>
    ensures long { IfOk result (λ bytes. 12 ≤ length bytes.items) }
    ensures holds { IfOk result (λ bytes. HoldsHead bytes.items size) }
    ensures shown { IfOk result (λ bytes. IfSome (V.files area.old) (λ m.
        ShowsFrom (bytes_of m path.now) 0 bytes.items)) }
    ensures reads { OnlyReads V.Vault area.old area.new }
    ensures cause { HasCause (V.faults area.old) (V.faults area.new) result }
{
    let mut bytes = piece_at(alloc, area, path, 0, FRONT)?;
    if let Some(head) = head_size(&bytes, size) {
        read_up_to(alloc, area, path, head, &mut bytes)?;
    }
    Ok(bytes)
}

/// An answer on a head, where that isn't want of memory.
fn judged(answer: Result<HeadView, HeadFault>) -> Result<Result<HeadView, HeadFault>, NoMemory>
    ensures same { IfOk result (λ judged. judged ≡ answer) }
    ensures judged { IfOk result (λ judged. judged ≢ Err OutOfMemory) }
{
    match answer {
        Err(HeadFault::NoMemory) => Err(NoMemory),
        judged => Ok(judged),
    }
}

/// What the head of the incremental file at a path says, by the file's size, or the first fault for
/// which it is none; that is never want of memory. Only the head is read: the first 12 bytes, and
/// the block numbers where their count gives the size. Zeros stand for bytes that the area doesn't
/// give. `block_place` may be asked of the answer.
pub fn read_head<V: Vault>(
    alloc: Global,
    area: &mut V,
    path: &[u8],
    size: u64,
) -> Result<Result<HeadView, HeadFault>, AreaFault>
    ensures answer { IfOk result (λ answer. IfSome (V.files area.old) (λ m.
        HeadAnswers (bytes_of m path.now) size answer)) }
    ensures judged { IfOk result (λ answer. answer ≢ Err OutOfMemory) }
    ensures head { IfOk result (λ answer. IfOk answer (λ view. IsHead view.head)) }
    ensures places { IfOk result (λ answer. IfOk answer HasPlaces) }
    ensures reads { OnlyReads V.Vault area.old area.new }
    ensures cause { HasCause (V.faults area.old) (V.faults area.new) result }
{
    let bytes = head_bytes(alloc, area, path, size)?;
    Ok(judged(decode_head(alloc, &bytes, size))?)
}
