//! The text of a backup's manifest.

ghost use Rattle.std.specs.Prelude.{◌<◌, IfOk};
ghost use Rattle.backup_files.specs.Rows.{AreListable, ListsRows};

use crate::rows::sort_rows;
use lsn_core::{Lsn, NoMemory};
use manifest::{FileRow, Manifest, manifests_are_read_again, write_manifest};
use std::alloc::Global;

/// The text of the manifest of a store with this system identifier that lists these rows, in order
/// of their paths, and a WAL from a place to another.
pub fn manifest_text(
    alloc: Global,
    system: u64,
    rows: Vec<FileRow>,
    start: Lsn,
    end: Lsn,
) -> Result<Vec<u8>, NoMemory>
    requires rows { AreListable rows.items }
    requires rises { start.0 < end.0 }
    ensures { IfOk result (λ text. ListsRows system rows.items start end text.items) }
{
    // known: a manifest is read as it was written
    manifests_are_read_again();
    let mut rows = rows;
    sort_rows(&mut rows);
    let manifest = Manifest {
        version: 2,
        system: Some(system),
        files: rows,
        start,
        end,
    };
    write_manifest(alloc, &manifest)
}
