//! The files of an area in memory: a map from name to bytes, whose files are written in place.

ghost use Rattle.std.specs.Prelude.{◌≡◌, ◌-◌, ◌^◌, ◌≤◌, ℕ, min, length, take, drop, ◌++◌, IfOk, OnOk, OnErr};
ghost use Rattle.std.specs.Option.{option_map};
ghost use Rattle.std.specs.FinMap.{get, keys};
ghost use Rattle.lsn_core.specs.byte_words.Pieces.{zero_filled};
ghost use Rattle.vault.specs.Area.{bytes_of, file_written, after_cut, after_remove};
ghost use Rattle.memory_vault.specs.Memory.{files_in, reads_in, read_count, IsWritten, IsReadCounted};

use lsn_core::byte_words::overwrite;
use lsn_core::{NoMemory, Text};
use std::alloc::Global;
use std::collections::BTreeMap;

/// The bytes of a file, none where it isn't there.
pub fn bytes_in<'a>(files: &'a BTreeMap<Vec<u8>, Vec<u8>>, name: &[u8]) -> &'a [u8]
    ensures { result.now ≡ bytes_of (files_in files.now) name.now }
{
    match files.get(name) {
        Some(bytes) => bytes,
        None => &[],
    }
}

/// How many bytes a file has.
pub fn size_in(files: &BTreeMap<Vec<u8>, Vec<u8>>, name: &[u8]) -> Option<u64>
    ensures { result ≡ option_map length (get (files_in files.now) name.now) }
{
    match files.get(name) {
        Some(bytes) => Some(bytes.len() as u64),
        None => None,
    }
}

/// All names.
pub fn names_in(alloc: Global, files: &BTreeMap<Vec<u8>, Vec<u8>>) -> Result<Vec<Text>, NoMemory>
    ensures { IfOk result (λ names. names.items ≡ keys (files_in files.now)) }
{
    let mut names = Vec::new(alloc);
    for name in files.keys() {
        names.push(Text::from_vec(name.to_vec(alloc)?))?;
    }
    Ok(names)
}

/// Copies from a place of a file, as much as there is room for.
pub fn copy_from(bytes: &[u8], at: u64, into: &mut [u8]) -> u32
    requires { length into.old ≤ 2 ^ 20 }
    ensures count { result ≡ min (length into.old) (length bytes.now - at) }
    ensures bytes { into.new ≡ take result (drop at bytes.now) ++ drop result into.old }
{
    let from = bytes.len().min(at as usize);
    let count = into.len().min(bytes.len() - from);
    into[..count].copy_from_slice(&bytes[from..from + count]);
    count as u32
}

/// Writes a piece over a file, and makes a missing one.
pub fn write_file(
    alloc: Global,
    files: &mut BTreeMap<Vec<u8>, Vec<u8>>,
    name: &[u8],
    at: u64,
    piece: &[u8],
) -> Result<(), NoMemory>
    ensures { IsWritten name.now at piece.now files.old files.new result }
{
    match files.get_mut(name) {
        Some(bytes) => write_over(bytes, at, piece),
        None => make_file(alloc, files, name, at, piece),
    }
}

/// Makes a file that isn't there, and writes a piece of it.
fn make_file(
    alloc: Global,
    files: &mut BTreeMap<Vec<u8>, Vec<u8>>,
    name: &[u8],
    at: u64,
    piece: &[u8],
) -> Result<(), NoMemory>
    requires { get (files_in files.old) name.now ≡ None }
    ensures { IsWritten name.now at piece.now files.old files.new result }
{
    let mut bytes = Vec::new(alloc);
    write_over(&mut bytes, at, piece)?;
    files.insert(name.to_vec(alloc)?, bytes)?;
    Ok(())
}

/// Writes a piece over a file's bytes.
fn write_over(bytes: &mut Vec<u8>, at: u64, piece: &[u8]) -> Result<(), NoMemory>
    ensures written { OnOk result (bytes.new.items ≡ file_written bytes.old.items at piece.now) }
    ensures same { OnErr result (bytes.new.items ≡ bytes.old.items) }
{
    if piece.is_empty() {
        return Ok(());
    }
    let Some(end) = (at as usize).checked_add(piece.len()) else {
        return Err(NoMemory);
    };
    zero_fill(bytes, end)?;
    overwrite(bytes, at as usize, piece);
    Ok(())
}

/// Fills up with zeros to a length.
fn zero_fill(bytes: &mut Vec<u8>, size: usize) -> Result<(), NoMemory>
    ensures filled { OnOk result (bytes.new.items ≡ zero_filled bytes.old.items size) }
    ensures same { OnErr result (bytes.new.items ≡ bytes.old.items) }
{
    if bytes.len() < size {
        bytes.resize(size, 0)?;
    }
    Ok(())
}

/// Cuts a file to its first bytes.
pub fn cut_file(files: &mut BTreeMap<Vec<u8>, Vec<u8>>, name: &[u8], size: u64)
    ensures { files_in files.new ≡ after_cut name.now size (files_in files.old) }
{
    if let Some(bytes) = files.get_mut(name) {
        bytes.truncate(size as usize);
    }
}

/// Takes a file away.
pub fn remove_file(files: &mut BTreeMap<Vec<u8>, Vec<u8>>, name: &[u8])
    ensures { files_in files.new ≡ after_remove name.now (files_in files.old) }
{
    files.remove(name);
}

/// How many bytes reads gave of a file.
pub fn count_in(reads: &BTreeMap<Vec<u8>, u64>, name: &[u8]) -> u64
    ensures { result ≡ read_count (reads_in reads.now) name.now }
{
    match reads.get(name) {
        Some(count) => *count,
        None => 0,
    }
}

/// Counts the bytes that a read of a file gave.
pub fn count_read(
    alloc: Global,
    reads: &mut BTreeMap<Vec<u8>, u64>,
    name: &[u8],
    count: u32,
) -> Result<(), NoMemory>
    ensures { IsReadCounted name.now count reads.old reads.new result }
{
    let so_far = count_in(reads, name);
    reads.insert(name.to_vec(alloc)?, so_far.saturating_add(u64::from(count)))?;
    Ok(())
}
