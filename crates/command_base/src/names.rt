//! Names of areas.

ghost use Rattle.std.specs.Prelude.{◌≡◌, map, bytes_eq, IfOk};
ghost use Rattle.command_base.specs.Areas.{output_name, backup_name};

use crate::faults::joined;
use lsn_core::{NoMemory, Text};
use std::alloc::Global;

/// These names, as areas are asked for.
pub fn names_of(alloc: Global, names: &[&[u8]]) -> Result<Vec<Text>, NoMemory>
    ensures { IfOk result (λ texts. texts.items ≡ map (λ name. name.now) names.now) }
{
    let mut texts = Vec::new(alloc);
    for name in names {
        texts.push(joined(alloc, &[name])?)?;
    }
    Ok(texts)
}

/// The name of an output's area.
pub fn output_name(alloc: Global, name: &[u8]) -> Result<Text, NoMemory>
    ensures { IfOk result (λ area. area ≡ output_name name.now) }
{
    joined(alloc, &[b"o/", name])
}

/// The name of the area of a backup's directory.
pub fn backup_name(alloc: Global, name: &[u8]) -> Result<Text, NoMemory>
    ensures { IfOk result (λ area. area ≡ backup_name name.now) }
{
    joined(alloc, &[b"b/", name])
}

/// Whether a name is that of the area of this backup.
pub fn is_backup_name(area: &[u8], name: &[u8]) -> bool
    ensures { result ≡ bytes_eq area.now (backup_name name.now) }
{
    match area {
        [b'b', b'/', rest @ ..] => rest == name,
        _ => false,
    }
}
