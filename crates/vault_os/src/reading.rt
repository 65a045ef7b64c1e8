//! Reads of files, which are kept open between reads.

ghost use Rattle.std.specs.Prelude.{◌≡◌, ◌+◌, ◌<◌, ◌≤◌, ◌^◌, ℕ, List, length, bytes_eq, position, IfOk, string_bytes};
ghost use Rattle.vault.specs.Area.{IsSizeIn, ReadsIn};
ghost use Rattle.vault_os.specs.Paths.{told_in};
ghost use Rattle.vault_os.specs.Open.{AreOpenAt};
ghost use Rattle.vault_os.specs.Reading.{HoldsSoFar, FillsOrEnds, ReadsOn, Opens};

use crate::errors::{SystemError, told};
use crate::open_files::{OpenFile, OpenFiles};
use crate::paths::Root;
use std::alloc::Global;
use std::io;
use system_calls::{Kind, System};

/// The most bytes that a file of the system may have.
const MOST: u64 = i64::MAX as u64;

/// Reads a file of a folder from a place on, as much as there is room for. It is kept open then.
pub(crate) fn read_from<S: System>(
    root: &Root,
    system: &S,
    kept: &mut OpenFiles<S::File>,
    name: &[u8],
    at: u64,
    into: &mut [u8],
) -> Result<u32, SystemError>
    requires few { length into.old ≤ 2 ^ 20 }
    requires kept { AreOpenAt (S.is_at system.now) (string_bytes root.now.path) kept.old }
    ensures count { IfOk result (λ count. count ≤ length into.old) }
    ensures read { IfOk result (ReadsIn (told_in (string_bytes root.now.path)
        (S.files system.now)) name.now at into.old into.new) }
    ensures kept { AreOpenAt (S.is_at system.now) (string_bytes root.now.path) kept.new }
{
    if let Some(place) = place_of(&kept.read, name) {
        return read_open(root, system, &kept.read[place], at, into);
    }
    let Some(file) = open_from(root, system, name, at)? else {
        return Ok(0);
    };
    let count = read_open(root, system, &file, at, into)?;
    kept.keep(file)?;
    Ok(count)
}

/// How many bytes the file of a path has. None where there is none.
pub(crate) fn size_at<S: System>(
    alloc: Global,
    system: &S,
    path: &str,
) -> Result<Option<u64>, SystemError>
    ensures { IfOk result (IsSizeIn (S.files system.now) path.now) }
{
    match told(alloc, "stat", path, system.stat(path))? {
        Some(Kind::File(size)) => Ok(Some(size)),
        _ => Ok(None),
    }
}

/// Where the open file of a name stands.
fn place_of<F: Drop>(files: &[OpenFile<F>], name: &[u8]) -> Option<usize>
    ensures { result ≡ position (λ file. bytes_eq name.now file.name.items) files.now }
{
    files.iter().position(|file| name == file.name.as_slice())
}

/// Opens a file that has bytes from a place on. None where it has none.
fn open_from<S: System>(
    root: &Root,
    system: &S,
    name: &[u8],
    at: u64,
) -> Result<Option<OpenFile<S::File>>, SystemError>
    ensures { IfOk result (Opens (S.is_at system.now) (string_bytes root.now.path)
        (S.files system.now) name.now at) }
{
    let Some(path) = root.path_of(name)? else {
        return Ok(None);
    };
    let size = size_at(root.alloc, system, path.as_str())?;
    if size.unwrap_or(0) <= at {
        return Ok(None);
    }
    let opened = told(
        root.alloc,
        "open",
        path.as_str(),
        system.open(path.as_str()),
    )?;
    let Some(file) = opened else {
        return Ok(None);
    };
    let name = name.to_vec(root.alloc)?;
    Ok(Some(OpenFile { name, path, file }))
}

/// Reads an open file from a place on, as much as there is room for.
fn read_open<S: System>(
    root: &Root,
    system: &S,
    file: &OpenFile<S::File>,
    at: u64,
    into: &mut [u8],
) -> Result<u32, SystemError>
    requires few { length into.old ≤ 2 ^ 20 }
    ensures count { IfOk result (λ count. count ≤ length into.old) }
    ensures read { IfOk result (λ count. (path : List ℕ) → S.is_at system.now file.now.file path
        → ReadsIn (S.files system.now) path at into.old into.new count) }
{
    let room = MOST.saturating_sub(at).min(into.len() as u64) as usize;
    let count = fill(system, &file.file, at, &mut into[..room]);
    Ok(told(root.alloc, "read", file.path.as_str(), count)? as u32)
}

/// Reads from a place on until the buffer is full or the file ends.
fn fill<S: System>(system: &S, file: &S::File, at: u64, into: &mut [u8]) -> io::Result<usize>
    requires { at + length into.old < 2 ^ 64 }
    ensures count { IfOk result (λ count. count ≤ length into.old) }
    ensures held { IfOk result (λ count. (path : List ℕ) → S.is_at system.now file.now path
        → HoldsSoFar (S.files system.now) path at into.old into.new count) }
    ensures end { IfOk result (λ count. (path : List ℕ) → S.is_at system.now file.now path
        → FillsOrEnds (S.files system.now) path at (length into.old) count) }
{
    let mut count = 0;
    for _ in 0..u64::MAX {
        let got = read_some(system, file, at, into, count)?;
        if got == 0 {
            return Ok(count);
        }
        count += got;
    }
    Err(io::ErrorKind::Interrupted.into())
}

/// Reads once more into a buffer that holds so many bytes. None exactly at its end and at that of
/// the file.
fn read_some<S: System>(
    system: &S,
    file: &S::File,
    at: u64,
    into: &mut [u8],
    count: usize,
) -> io::Result<usize>
    requires count { count ≤ length into.old }
    requires room { at + length into.old < 2 ^ 64 }
    ensures room { IfOk result (λ got. count + got ≤ length into.old) }
    ensures more { IfOk result (λ got. (path : List ℕ) → S.is_at system.now file.now path → ReadsOn
        (S.files system.now) path at into.old into.new count got) }
    ensures end { IfOk result (λ got. (path : List ℕ) → S.is_at system.now file.now path → got ≡ 0
        → FillsOrEnds (S.files system.now) path at (length into.old) count) }
{
    if count == into.len() {
        return Ok(0);
    }
    system.read(file, at + count as u64, &mut into[count..])
}
