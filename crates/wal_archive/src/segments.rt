//! The files of segments.

ghost use Rattle.std.specs.Prelude.{◌≡◌, ◌≤◌, IfOk, IfSome};
ghost use Rattle.lsn_core.specs.Causes.{HasCause};
ghost use Rattle.lsn_core.specs.Segment.{segment_bytes};
ghost use Rattle.lsn_core.specs.Sizes.{most_segments};
ghost use Rattle.vault.specs.Frame.{OnlyReads};
ghost use Rattle.wal_archive.specs.Scanning.{TellsSegment, HeldIn, is_in_archive};

use crate::run::is_segment;
use lsn_core::{AreaFault, SegSize, segment_name, segment_read};
use std::alloc::Global;
use vault::Vault;

/// Whether a segment of this timeline and number is one of the archive.
fn is_in_archive(timeline: u32, number: u64) -> bool
    ensures { result ≡ is_in_archive timeline number }
{
    timeline == 1 && is_segment(number)
}

/// The number of the segment of the archive whose file has this name. None exactly where there is
/// none.
pub fn segment_in(name: &[u8], size: SegSize) -> Option<u64>
    ensures segment { TellsSegment size name.now result }
    ensures most { IfSome result (λ number. number ≤ most_segments) }
{
    // known: so large a segment has a name for each number of the archive
    let _mib = size.mib();
    match segment_read(name, size) {
        Some((timeline, number)) => {
            if is_in_archive(timeline, number) {
                return Some(number);
            }
            None
        }
        None => None,
    }
}

/// How many bytes are held of a segment. None exactly where it has no file.
pub fn held_size<V: Vault>(
    alloc: Global,
    area: &mut V,
    size: SegSize,
    number: u64,
) -> Result<Option<u64>, AreaFault>
    ensures held { IfOk result (HeldIn size (V.files area.old) number) }
    ensures most { IfOk result (λ held. IfSome held (λ count. count ≤ segment_bytes size)) }
    ensures number { IfOk result (λ held. IfSome held (λ count. number ≤ most_segments)) }
    ensures reads { OnlyReads V.Vault area.old area.new }
    ensures cause { HasCause (V.faults area.old) (V.faults area.new) result }
{
    if !is_segment(number) {
        return Ok(None);
    }
    let name = segment_name(alloc, number, size)?;
    match area.size(name.as_bytes())? {
        Some(count) => Ok(Some(count.min(size.bytes()))),
        None => Ok(None),
    }
}
