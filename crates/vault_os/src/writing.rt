//! Changes of files of a folder.

ghost use Rattle.std.specs.Prelude.{◌≡◌, [], ◌^◌, ℕ, List, length, IfOk, OnOk, OnErr, string_bytes};
ghost use Rattle.std.specs.Option.{option_map};
ghost use Rattle.vault.specs.Area.{IsTorn, IsUndecided, Related, after_write, after_cut, after_remove};
ghost use Rattle.vault_os.specs.Open.{IsOpenAt, AreOpenAt};
ghost use Rattle.vault_os.specs.Paths.{told_in};
ghost use Rattle.system_calls.specs.System.{MayMake, Stays};

use crate::errors::{SystemError, told};
use crate::open_files::{OpenFile, OpenFiles};
use crate::paths::Root;
use crate::reading::size_at;
use std::io::ErrorKind;
use system_calls::System;

/// Writes a piece at a place of a file of a folder. The file is kept open then, but after an error.
pub(crate) fn write_to<S: System>(
    root: &Root,
    system: &mut S,
    kept: &mut OpenFiles<S::File>,
    name: &[u8],
    at: u64,
    piece: &[u8],
) -> Result<(), SystemError>
    requires kept { AreOpenAt (S.is_at system.old) (string_bytes root.now.path) kept.old }
    ensures written { OnOk result (told_in (string_bytes root.now.path) (S.files system.new)
        ≡ option_map (after_write name.now at piece.now) (told_in (string_bytes root.now.path)
        (S.files system.old))) }
    ensures failed { OnErr result (Related (IsTorn name.now at (length piece.now)) (told_in
        (string_bytes root.now.path) (S.files system.old)) (told_in (string_bytes root.now.path)
        (S.files system.new))) }
    ensures kept { AreOpenAt (S.is_at system.new) (string_bytes root.now.path) kept.new }
{
    let file = take_to_write(root, system, kept, name)?;
    write_open(root, system, &file, at, piece)?;
    kept.written = Some(file);
    Ok(())
}

/// The file that was written last, if it has this name, or else one that is opened or made. It
/// isn't kept any longer.
fn take_to_write<S: System>(
    root: &Root,
    system: &mut S,
    kept: &mut OpenFiles<S::File>,
    name: &[u8],
) -> Result<OpenFile<S::File>, SystemError>
    requires kept { AreOpenAt (S.is_at system.old) (string_bytes root.now.path) kept.old }
    ensures open { IfOk result (λ file. IsOpenAt (S.is_at system.new)
        (string_bytes root.now.path) file × (file.name.items ≡ name.now)) }
    ensures made { MayMake name.now (told_in (string_bytes root.now.path) (S.files system.old))
        (told_in (string_bytes root.now.path) (S.files system.new)) }
    ensures kept { AreOpenAt (S.is_at system.new) (string_bytes root.now.path) kept.new }
{
    if let Some(file) = kept.written.take() {
        if file.is_named(name) {
            return Ok(file);
        }
    }
    open_to_write(root, system, name)
}

/// Opens a file of a folder to write, and makes it and its folders where they are missing.
fn open_to_write<S: System>(
    root: &Root,
    system: &mut S,
    name: &[u8],
) -> Result<OpenFile<S::File>, SystemError>
    ensures open { IfOk result (λ file. IsOpenAt (S.is_at system.new)
        (string_bytes root.now.path) file × (file.name.items ≡ name.now)) }
    ensures made { MayMake name.now (told_in (string_bytes root.now.path) (S.files system.old))
        (told_in (string_bytes root.now.path) (S.files system.new)) }
    ensures stay { Stays S.is_at system.old system.new }
{
    let Some(path) = root.path_of(name)? else {
        return Err(SystemError::bad_name(root.alloc, root.path.as_str(), name));
    };
    let file = make_at(root, system, path.as_str())?;
    let name = name.to_vec(root.alloc)?;
    Ok(OpenFile { name, path, file })
}

/// Opens the file of a path to write, and makes it and its folders where they are missing.
fn make_at<S: System>(root: &Root, system: &mut S, path: &str) -> Result<S::File, SystemError>
    ensures at { IfOk result (λ file. S.is_at system.new file path.now) }
    ensures made { OnOk result (S.files system.new ≡ option_map (after_write path.now 0 [])
        (S.files system.old)) }
    ensures failed { OnErr result (Related (IsUndecided (after_write path.now 0 []))
        (S.files system.old) (S.files system.new)) }
    ensures open { Stays S.is_at system.old system.new }
{
    if let Some(file) = told(root.alloc, "open", path, system.make(path))? {
        return Ok(file);
    }
    if let Some((folder, _)) = path.rsplit_once('/') {
        told(root.alloc, "mkdir", folder, system.make_folders(folder))?;
    }
    match told(root.alloc, "open", path, system.make(path))? {
        Some(file) => Ok(file),
        None => Err(SystemError::new(root.alloc, "open", path, ErrorKind::NotFound.into())),
    }
}

/// Writes a piece at a place of an open file.
fn write_open<S: System>(
    root: &Root,
    system: &mut S,
    file: &OpenFile<S::File>,
    at: u64,
    piece: &[u8],
) -> Result<(), SystemError>
    ensures written { (path : List ℕ) → S.is_at system.old file.now.file path → OnOk result
        (S.files system.new ≡ option_map (after_write path at piece.now) (S.files system.old)) }
    ensures failed { (path : List ℕ) → S.is_at system.old file.now.file path → OnErr result
        (Related (IsTorn path at (length piece.now)) (S.files system.old) (S.files system.new)) }
    ensures open { Stays S.is_at system.old system.new }
{
    let written = if at.checked_add(piece.len() as u64).is_some() {
        system.write(&file.file, at, piece)
    } else {
        Err(ErrorKind::FileTooLarge.into())
    };
    told(root.alloc, "write", file.path.as_str(), written)
}

/// Cuts the file of a path to its first bytes. A shorter or missing file stays.
pub(crate) fn cut_at<S: System>(
    root: &Root,
    system: &mut S,
    path: &str,
    size: u64,
) -> Result<(), SystemError>
    ensures cut { OnOk result (S.files system.new ≡ option_map (after_cut path.now size)
        (S.files system.old)) }
    ensures failed { OnErr result (Related (IsUndecided (after_cut path.now size))
        (S.files system.old) (S.files system.new)) }
    ensures open { Stays S.is_at system.old system.new }
{
    let now = size_at(root.alloc, system, path)?;
    if now.unwrap_or(0) <= size {
        return Ok(());
    }
    told(root.alloc, "truncate", path, system.truncate(path, size))
}

/// Removes the file of a path. A missing one is no fault.
pub(crate) fn remove_at<S: System>(
    root: &Root,
    system: &mut S,
    path: &str,
) -> Result<(), SystemError>
    ensures removed { OnOk result (S.files system.new ≡ option_map (after_remove path.now)
        (S.files system.old)) }
    ensures failed { OnErr result (Related (IsUndecided (after_remove path.now))
        (S.files system.old) (S.files system.new)) }
{
    let Some(_) = size_at(root.alloc, system, path)? else {
        return Ok(());
    };
    told(root.alloc, "unlink", path, system.unlink(path))
}
