//! Incremental files of a merged backup.

ghost use Rattle.std.specs.Prelude.{◌≡◌, ◌≢◌, ◌+◌, ◌*◌, ◌^◌, ◌<◌, ◌≤◌, false, length, IfOk, IfErr};
ghost use Rattle.backup_files.specs.Directory.{manifest_name};
ghost use Rattle.backup_files.specs.Area.{Lacks, SparesManifest};
ghost use Rattle.incr_file.specs.Head.{IsHead};
ghost use Rattle.chain_files.specs.Paths.{IsRelationFile};
ghost use Rattle.chain_files.specs.Segments.{forms_at};
ghost use Rattle.chain_files.specs.Sources.{OfChain};
ghost use Rattle.chain_files.specs.Told.{chain_told, ArePlaces, AllOnlyRead};
ghost use Rattle.merged_forms.specs.Merged.{rests_on_plain};
ghost use Rattle.directory_files.specs.Faults.{WriteCause};
ghost use Rattle.directory_files.specs.Written.{AddsPages, IsMade};
ghost use Rattle.incr_merge.specs.Inside.{IsJoined, IsPartOf};

use chain_files::{SegmentSource, open_file};
use directory_files::{Growing, WriteFault, add_pages};
use incr_file::{IncrHead, encode_head};
use lsn_core::MOST_RELSEG;
use series_files::merged_head;
use std::alloc::Global;
use vault::{Held, Vault};

/// Writes a file with this head, whose blocks are pages of a source, into a file of the output,
/// which isn't there.
fn write_part<V: Vault>(
    alloc: Global,
    areas: &mut [Held<V>],
    places: &[u32],
    source: &SegmentSource,
    head: &IncrHead,
    path: &[u8],
    out: &mut V,
    buffer: &mut [u8; 65536],
) -> Result<Growing, WriteFault>
    requires places { ArePlaces (length areas.old) places.now }
    requires head { IsHead head.now }
    requires other { path.now ≢ manifest_name }
    requires missing { Lacks (V.files out.old) path.now }
    ensures made { IfOk result (IsMade
        (IsPartOf (chain_told V.Vault areas.old places.now) source.now head.now)
        path.now (V.files out.old) (V.files out.new)) }
    ensures reads { AllOnlyRead V.Vault areas.old areas.new }
    ensures spares { SparesManifest V.Vault out.old out.new }
    ensures cause { IfErr result (WriteCause V.Vault areas.old out.old areas.new out.new) }
{
    let bytes = encode_head(alloc, head)?;
    let mut file = Growing::begin(out, path)?;
    file.add(out, path, &bytes)?;
    let mut left = head.blocks.as_slice();
    while let Some((block, behind)) = left.split_first() {
        add_pages(
            areas, places, source, *block, 1, path, out, &mut file, buffer,
        )?;
        left = behind;
    }
    Ok(file)
}

/// Writes the incremental file of a folder and a plain name to which a series is merged that
/// doesn't have it whole, into a file of the output, which isn't there.
pub(crate) fn merge_file<V: Vault>(
    alloc: Global,
    areas: &mut [Held<V>],
    places: &[u32],
    folder: &[u8],
    name: &[u8],
    path: &[u8],
    out: &mut V,
    buffer: &mut [u8; 65536],
) -> Result<Growing, WriteFault>
    requires places { ArePlaces (length areas.old) places.now }
    requires placed { IsRelationFile folder.now name.now }
    requires other { path.now ≢ manifest_name }
    requires missing { Lacks (V.files out.old) path.now }
    ensures made { IfOk result (IsMade
        (λ bytes. OfChain (chain_told V.Vault areas.old places.now) (λ series.
        rests_on_plain (forms_at series folder.now name.now) ≡ false
        → IsJoined series folder.now name.now false bytes))
        path.now (V.files out.old) (V.files out.new)) }
    ensures reads { AllOnlyRead V.Vault areas.old areas.new }
    ensures spares { SparesManifest V.Vault out.old out.new }
    ensures cause { IfErr result (WriteCause V.Vault areas.old out.old areas.new out.new) }
{
    let Some(source) = open_file(alloc, areas, places, folder, name)? else {
        return Ok(Growing::begin(out, path)?);
    };
    let count = source.pages().min(MOST_RELSEG as u64) as u32;
    let head = merged_head(alloc, areas, places, folder, name, count)?;
    write_part(alloc, areas, places, &source, &head, path, out, buffer)
}
