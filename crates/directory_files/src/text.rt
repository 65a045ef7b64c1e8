//! The manifest of a directory whose files stand for listed ones.

ghost use Rattle.std.specs.Prelude.{◌<◌, IfOk, IsSome};
ghost use Rattle.backup_files.specs.Rows.{AreListable};
ghost use Rattle.directory_files.specs.Written.{Relists};

use backup_files::manifest_text;
use lsn_core::NoMemory;
use manifest::{FileRow, Manifest};
use std::alloc::Global;

/// The text of a manifest with these rows, in order of their paths, that tells the rest as another
/// one does, of version 2.
pub fn relisted_text(alloc: Global, m: &Manifest, rows: Vec<FileRow>) -> Result<Vec<u8>, NoMemory>
    requires rows { AreListable rows.items }
    requires system { IsSome m.now.system }
    requires rises { m.now.start < m.now.end }
    ensures { IfOk result (λ text. Relists m.now rows.items text.items) }
{
    manifest_text(alloc, m.system.unwrap(), rows, m.start, m.end)
}
