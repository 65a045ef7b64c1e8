//! The sums of files, read in pieces.

ghost use Rattle.std.specs.Prelude.{◌≡◌, ◌+◌, ◌^◌, ◌<◌, ◌≤◌, length, take, IfOk, IfSome, OnOk};
ghost use Rattle.lsn_core.specs.Causes.{HasCause};
ghost use Rattle.vault.specs.Area.{bytes_of};
ghost use Rattle.vault.specs.Frame.{OnlyReads};
ghost use Rattle.file_sums.specs.Sums.{sum_of, says_sum, has_sum};

use hex::FromHexError;
use lsn_core::{AreaFault, NoMemory};
use manifest::{FileRow, SumKind};
use sha2::{Digest, Sha224, Sha256, Sha384, Sha512};
use std::alloc::Global;
use vault::Vault;

/// Adds the piece of a file from a place on, at most as long as the buffer, to what is hashed.
fn hash_piece<V: Vault, D: Digest>(
    area: &mut V,
    path: &[u8],
    at: u64,
    buffer: &mut [u8],
    hasher: &mut D,
) -> Result<(), AreaFault>
    requires { length buffer.old ≤ 2 ^ 20 }
    ensures hashed { OnOk result (IfSome (V.files area.old) (λ m.
        D.holds hasher.old (take at (bytes_of m path.now))
        → D.holds hasher.new (take (at + length buffer.old) (bytes_of m path.now)))) }
    ensures reads { OnlyReads V.Vault area.old area.new }
    ensures cause { HasCause (V.faults area.old) (V.faults area.new) result }
{
    let count = area.read_at(path, at, buffer)? as usize;
    hasher.update(&buffer[..count]);
    Ok(())
}

/// The digest of the first bytes of a file, of all bytes where it has no more.
fn digest_file<V: Vault, D: Digest>(
    area: &mut V,
    path: &[u8],
    size: u64,
    buffer: &mut [u8],
) -> Result<D::Output, AreaFault>
    requires some { 0 < length buffer.old }
    requires most { length buffer.old ≤ 2 ^ 20 }
    ensures digest { IfOk result (λ d. IfSome (V.files area.old) (λ m.
        D.digest_of (take size (bytes_of m path.now)) d)) }
    ensures long { length buffer.new ≡ length buffer.old }
    ensures reads { OnlyReads V.Vault area.old area.new }
    ensures cause { HasCause (V.faults area.old) (V.faults area.new) result }
{
    let mut hasher = D::new();
    let mut at = 0;
    while at < size {
        let piece = (size - at).min(buffer.len() as u64) as usize;
        hash_piece(area, path, at, &mut buffer[..piece], &mut hasher)?;
        at += piece as u64;
    }
    Ok(hasher.finalize())
}

/// The sum of the first bytes of a file, of all bytes where it has no more.
fn sum_file<V: Vault>(
    alloc: Global,
    area: &mut V,
    path: &[u8],
    size: u64,
    kind: SumKind,
    buffer: &mut [u8],
) -> Result<Vec<u8>, AreaFault>
    requires some { 0 < length buffer.old }
    requires most { length buffer.old ≤ 2 ^ 20 }
    ensures sum { IfOk result (λ sum. IfSome (V.files area.old) (λ m.
        sum.items ≡ sum_of kind (take size (bytes_of m path.now)))) }
    ensures reads { OnlyReads V.Vault area.old area.new }
    ensures cause { HasCause (V.faults area.old) (V.faults area.new) result }
{
    let sum = match kind {
        SumKind::Sha224 => digest_file::<V, Sha224>(area, path, size, buffer)?.to_vec(alloc)?,
        SumKind::Sha256 => digest_file::<V, Sha256>(area, path, size, buffer)?.to_vec(alloc)?,
        SumKind::Sha384 => digest_file::<V, Sha384>(area, path, size, buffer)?.to_vec(alloc)?,
        SumKind::Sha512 => digest_file::<V, Sha512>(area, path, size, buffer)?.to_vec(alloc)?,
    };
    Ok(sum)
}

/// Whether hexadecimal digits, in either case, are those of a sum.
pub(crate) fn says_sum(alloc: Global, digits: &[u8], sum: &[u8]) -> Result<bool, NoMemory>
    ensures { IfOk result (λ same. same ≡ says_sum digits.now sum.now) }
{
    match hex::decode(alloc, digits) {
        Ok(bytes) => Ok(bytes.as_slice() == sum),
        Err(FromHexError::OutOfMemory) => Err(NoMemory),
        Err(_) => Ok(false),
    }
}

/// Whether the file of a row, as far as its size is listed, has the row's sum.
pub fn has_sum<V: Vault>(
    alloc: Global,
    area: &mut V,
    row: &FileRow,
    buffer: &mut [u8],
) -> Result<bool, AreaFault>
    requires some { 0 < length buffer.old }
    requires most { length buffer.old ≤ 2 ^ 20 }
    ensures same { IfOk result (λ same. IfSome (V.files area.old) (λ m.
        same ≡ has_sum row.now (take row.now.size (bytes_of m row.now.path)))) }
    ensures reads { OnlyReads V.Vault area.old area.new }
    ensures cause { HasCause (V.faults area.old) (V.faults area.new) result }
{
    let sum = sum_file(alloc, area, row.path.as_bytes(), row.size, row.kind, buffer)?;
    Ok(says_sum(alloc, row.sum.as_bytes(), &sum)?)
}
