//! Calls of areas and sites that say nothing of what they did. A test that makes many calls is
//! checked fast with them, since no call adds to what the check has to carry on.

ghost use Rattle.std.specs.Prelude.{◌≤◌};
ghost use Rattle.vault.specs.Site.{AllHome};

use lsn_core::AreaFault;
use std::alloc::Global;
use vault::{Site, Vault, read_in, read_whole, write_in};

/// A call that changes an area.
#[derive(Clone, Copy)]
pub enum Change<'a> {
    /// Writes at a place of a file.
    Write(&'a [u8], u64, &'a [u8]),
    /// Cuts a file to a size.
    Cut(&'a [u8], u64),
    /// Removes a file.
    Remove(&'a [u8]),
    /// Syncs the area.
    Sync,
}

/// Changes an area.
pub fn make<V: Vault>(area: &mut V, change: Change) -> Result<(), AreaFault>
    ensures { V.faults area.old ≤ V.faults area.new }
{
    match change {
        Change::Write(name, at, bytes) => area.write_at(name, at, bytes),
        Change::Cut(name, size) => area.cut(name, size),
        Change::Remove(name) => area.remove(name),
        Change::Sync => area.sync(),
    }
}

/// Changes an area in turn.
pub fn make_all(area: &mut impl Vault, changes: &[Change]) -> Result<(), AreaFault> {
    for change in changes {
        make(area, *change)?;
    }
    Ok(())
}

/// The size of a file.
pub fn size_of(area: &mut impl Vault, name: &[u8]) -> Result<Option<u64>, AreaFault> {
    area.size(name)
}

/// These are the names of the files, each with a space behind it.
pub fn has_names(alloc: Global, area: &mut impl Vault, line: &[u8]) -> Result<bool, AreaFault> {
    let names = area.names(alloc)?;
    let mut found = Vec::new(alloc);
    for name in &names {
        found.extend_from_slice(name.as_bytes())?;
        found.push(b' ')?;
    }
    Ok(found.as_slice() == line)
}

/// How many bytes a read of so many gives, eight at most, and what it leaves of eight dots.
fn read(
    area: &mut impl Vault,
    name: &[u8],
    at: u64,
    count: usize,
) -> Result<(u32, [u8; 8]), AreaFault> {
    let mut buffer = *b"........";
    let read = match buffer.get_mut(..count) {
        Some(into) => area.read_at(name, at, into)?,
        None => area.read_at(name, at, &mut buffer)?,
    };
    Ok((read, buffer))
}

/// A read of so many bytes, eight at most, gives these, and changes no more of its buffer.
pub fn reads(
    area: &mut impl Vault,
    name: &[u8],
    at: u64,
    count: usize,
    bytes: &[u8],
) -> Result<bool, AreaFault> {
    let (read, buffer) = read(area, name, at, count)?;
    let rest = buffer.strip_prefix(bytes);
    Ok(read as usize == bytes.len() && rest.is_some_and(|rest| rest.iter().all(|dot| *dot == b'.')))
}

/// A file has these bytes.
pub fn holds<V: Vault>(
    alloc: Global,
    area: &mut V,
    name: &[u8],
    bytes: &[u8],
) -> Result<bool, AreaFault>
    ensures { V.faults area.old ≤ V.faults area.new }
{
    let found = read_whole(alloc, area, name)?;
    Ok(found.as_slice() == bytes)
}

/// A file of an area of a site has these bytes.
pub fn holds_in<S: Site>(
    alloc: Global,
    site: &mut S,
    area: &[u8],
    file: &[u8],
    bytes: &[u8],
) -> Result<bool, AreaFault>
    requires { AllHome (S.areas site.old) }
    ensures { AllHome (S.areas site.new) }
{
    let found = read_in(alloc, site, area, file)?;
    Ok(found.as_slice() == bytes)
}

/// A file of an area of a site has so many bytes, and begins with these.
pub fn begins_in<S: Site>(
    alloc: Global,
    site: &mut S,
    area: &[u8],
    file: &[u8],
    bytes: &[u8],
    size: usize,
) -> Result<bool, AreaFault>
    requires { AllHome (S.areas site.old) }
    ensures { AllHome (S.areas site.new) }
{
    let found = read_in(alloc, site, area, file)?;
    let found = found.as_slice();
    Ok(found.len() == size && found.starts_with(bytes))
}

/// Writes these bytes at the begin of a file of an area of a site.
pub fn put_in<S: Site>(
    site: &mut S,
    area: &[u8],
    file: &[u8],
    bytes: &[u8],
) -> Result<(), AreaFault>
    requires { AllHome (S.areas site.old) }
    ensures { AllHome (S.areas site.new) }
{
    write_in(site, area, file, bytes)
}
