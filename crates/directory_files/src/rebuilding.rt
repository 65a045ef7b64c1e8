//! Files that are rebuilt of a chain's pages.

ghost use Rattle.std.specs.Prelude.{◌≡◌, ◌≢◌, ◌+◌, ◌*◌, ◌^◌, ◌<◌, ◌≤◌, length, take, IfOk, IfErr, IfSome};
ghost use Rattle.incr_file.specs.Form.{pages_bytes};
ghost use Rattle.backup_files.specs.Directory.{manifest_name};
ghost use Rattle.backup_files.specs.Area.{Lacks, SparesManifest};
ghost use Rattle.chain_files.specs.Paths.{IsRelationFile};
ghost use Rattle.chain_files.specs.Segments.{chain_pages};
ghost use Rattle.chain_files.specs.Sources.{OfChain};
ghost use Rattle.chain_files.specs.Told.{chain_told, ArePlaces, AllOnlyRead};
ghost use Rattle.directory_files.specs.Faults.{WriteCause};
ghost use Rattle.directory_files.specs.Written.{AddsPages, IsMade};

use crate::fault::WriteFault;
use crate::growing::Growing;
use chain_files::{SegmentSource, open_file};
use lsn_core::MOST_RELSEG;
use std::alloc::Global;
use vault::{Held, Vault};

/// How many pages are read at once: 64 KiB.
const PIECE: u32 = 8;

/// Adds pages of a source from a number on, at most so many, to a file of the output.
pub fn add_pages<V: Vault>(
    areas: &mut [Held<V>],
    places: &[u32],
    source: &SegmentSource,
    number: u32,
    most: u32,
    path: &[u8],
    out: &mut V,
    file: &mut Growing,
    buffer: &mut [u8; 65536],
) -> Result<(), WriteFault>
    requires places { ArePlaces (length areas.old) places.now }
    requires most { most ≤ 8 }
    requires other { path.now ≢ manifest_name }
    requires fits { file.old.size + most * 8192 < 2 ^ 64 }
    ensures added { IfOk result (λ done.
        AddsPages (chain_told V.Vault areas.old places.now) source.now number most
        path.now (V.files out.old) (V.files out.new) file.old file.new) }
    ensures reads { AllOnlyRead V.Vault areas.old areas.new }
    ensures spares { SparesManifest V.Vault out.old out.new }
    ensures cause { IfErr result (WriteCause V.Vault areas.old out.old areas.new out.new) }
{
    let count = source.read_pages(areas, places, number, most, buffer)?;
    file.add(out, path, &buffer[..count as usize * 8192])?;
    Ok(())
}

/// Rebuilds the file of a folder and a plain name into a file of the output, which isn't there: at
/// most as many pages as a segment file has.
pub fn rebuild_file<V: Vault>(
    alloc: Global,
    areas: &mut [Held<V>],
    places: &[u32],
    folder: &[u8],
    name: &[u8],
    path: &[u8],
    out: &mut V,
    buffer: &mut [u8; 65536],
) -> Result<Growing, WriteFault>
    requires places { ArePlaces (length areas.old) places.now }
    requires placed { IsRelationFile folder.now name.now }
    requires other { path.now ≢ manifest_name }
    requires missing { Lacks (V.files out.old) path.now }
    ensures made { IfOk result (IsMade (λ bytes. OfChain (chain_told V.Vault areas.old places.now)
        (λ chain. IfSome (chain_pages chain folder.now name.now) (λ pages.
        bytes ≡ pages_bytes (take 131072 pages)))) path.now (V.files out.old) (V.files out.new)) }
    ensures reads { AllOnlyRead V.Vault areas.old areas.new }
    ensures spares { SparesManifest V.Vault out.old out.new }
    ensures cause { IfErr result (WriteCause V.Vault areas.old out.old areas.new out.new) }
{
    let source = open_file(alloc, areas, places, folder, name)?;
    let mut file = Growing::begin(out, path)?;
    let Some(source) = source else {
        return Ok(file);
    };
    let count = source.pages().min(MOST_RELSEG as u64) as u32;
    let mut number = 0;
    while number < count {
        let most = PIECE.min(count - number);
        add_pages(
            areas, places, &source, number, most, path, out, &mut file, buffer,
        )?;
        number += most;
    }
    Ok(file)
}
